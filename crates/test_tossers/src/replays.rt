//! Replays of scripts. Systems are named by their index in the list of link files, packets by their order of export.
use crate::verdicts::net;
use echo_addr::{Address, Watched};
use echo_net::{World, read_script, replay};
use std::alloc::Global;
use std::test::Fail;

const CHAIN: &[&[u8]] = &[
    b"SYSTEM 1:10/1\nAREA TEST 1:10/2",
    b"SYSTEM 1:10/2\nAREA TEST 1:10/1 1:10/3",
    b"SYSTEM 1:10/3\nAREA TEST 1:10/2",
];

const STAR: &[&[u8]] = &[
    b"SYSTEM 1:10/1\nAREA TEST 1:10/2 1:10/3 1:10/4",
    b"SYSTEM 1:10/2\nAREA TEST 1:10/1",
    b"SYSTEM 1:10/3\nAREA TEST 1:10/1",
    b"SYSTEM 1:10/4\nAREA TEST 1:10/1",
];

/// The links 1-3, 3-2, 2-4 and 4-1.
const RING: &[&[u8]] = &[
    b"SYSTEM 1:10/1\nAREA TEST 1:10/3 1:10/4",
    b"SYSTEM 1:10/2\nAREA TEST 1:10/3 1:10/4",
    b"SYSTEM 1:10/3\nAREA TEST 1:10/1 1:10/2",
    b"SYSTEM 1:10/4\nAREA TEST 1:10/1 1:10/2",
];

const TRIANGLE: &[&[u8]] = &[
    b"SYSTEM 1:10/1\nAREA TEST 1:10/2 1:10/3",
    b"SYSTEM 1:10/2\nAREA TEST 1:10/1 1:10/3",
    b"SYSTEM 1:10/3\nAREA TEST 1:10/1 1:10/2",
];

/// How many messages of the area TEST each system has filed and has waiting, how many packets there are, how many of
/// them did not come, and whether all is settled.
type Told = (&'static [(usize, usize)], usize, usize, bool);

/// All three of the chain have the message, and nothing is under way.
const ALL: Told = (&[(1, 0), (1, 0), (1, 0)], 2, 0, true);

/// Whether the world after the script is as told.
fn is_told(world: &World, told: Told) -> bool {
    let (systems, packets, undelivered, settled) = told;
    world.systems() == systems.len()
        && systems.iter().enumerate().all(|(i, counts)| {
            (world.filed(i, b"TEST"), world.waiting(i, b"TEST")) == *counts
        })
        && world.packets() == packets
        && world.undelivered() == undelivered
        && world.settled() == settled
}

fn world_after(alloc: Global, texts: &[&[u8]], script: &[u8]) -> Result<World, Fail> {
    let events = read_script(alloc, script)?;
    Ok(replay(alloc, net(alloc, texts)?, &events)?)
}

fn ends_so(alloc: Global, texts: &[&[u8]], script: &[u8], told: Told) -> Result<bool, Fail> {
    let world = world_after(alloc, texts, script)?;
    Ok(is_told(&world, told))
}

/// Nets, scripts, and what is told after them.
const REPLAYS: &[(&[&[u8]], &[u8], Told)] = &[
    (CHAIN, b"", (&[(0, 0), (0, 0), (0, 0)], 0, 0, true)),
    (
        CHAIN,
        b"POST 0 TEST 00000001 Hello\nSCAN 0\nDELIVER 0\nSCAN 1\nDELIVER 1\nDELIVER 1\nSCAN 2\n",
        ALL,
    ),
    (
        STAR,
        b"POST 0 TEST 00000001\nSCAN 0\nDELIVER 0\nDELIVER 2\nSCAN 1\nSCAN 3\n",
        (&[(1, 0), (1, 0), (0, 0), (1, 0)], 3, 1, false),
    ),
    (
        RING,
        b"POST 0 TEST 00000001 Hello\nSCAN 0\nDELIVER 0\nDELIVER 1\nSCAN 2\nSCAN 3\nDELIVER 2\nDELIVER 3\nSCAN 1\n",
        (&[(1, 0), (1, 0), (1, 0), (1, 0)], 4, 0, true),
    ),
    (
        TRIANGLE,
        b"POST 0 TEST 00000001\nSCAN 0\nDELIVER 0\nDELIVER 1\nSCAN 1\nSCAN 2\n",
        ALL,
    ),
    (
        CHAIN,
        b"POST 0 TEST 00000001 Hello\nSCAN 0\nPURGE 0\nDELIVER 0\nPURGE 1\nSCAN 1\nPURGE 1\nDELIVER 1\nDELIVER 0\nPOST 0 TEST 00000001 Hello\n",
        (&[(1, 0), (1, 0), (1, 1)], 2, 0, false),
    ),
    (
        CHAIN,
        b"POST 3 TEST 00000001\nPOST 0 NONE 00000001\nSCAN 3\nDELIVER 0\nPURGE 3\n",
        (&[(0, 0), (0, 0), (0, 0)], 0, 0, true),
    ),
];

#[test]
fn replays(rt: HostRuntime) -> Result<(), Fail> {
    for (i, (texts, script, told)) in REPLAYS.iter().enumerate() {
        assert!(rt; ends_so(rt.alloc(), texts, script, *told)?, "row {i}");
    }
    Ok(())
}

/// The script of the chain with each DELIVER line left out, doubled, and put last. No system files the message twice.
const DELIVERIES: &[(&[u8], Told)] = &[
    (
        b"POST 0 TEST 00000001 Hello\nSCAN 0\nSCAN 1\nDELIVER 1\nDELIVER 1\nSCAN 2\n",
        (&[(1, 0), (0, 0), (0, 0)], 1, 1, false),
    ),
    (
        b"POST 0 TEST 00000001 Hello\nSCAN 0\nDELIVER 0\nSCAN 1\nDELIVER 1\nSCAN 2\n",
        ALL,
    ),
    (
        b"POST 0 TEST 00000001 Hello\nSCAN 0\nDELIVER 0\nSCAN 1\nDELIVER 1\nSCAN 2\n",
        ALL,
    ),
    (
        b"POST 0 TEST 00000001 Hello\nSCAN 0\nDELIVER 0\nDELIVER 0\nSCAN 1\nDELIVER 1\nDELIVER 1\nSCAN 2\n",
        ALL,
    ),
    (
        b"POST 0 TEST 00000001 Hello\nSCAN 0\nDELIVER 0\nSCAN 1\nDELIVER 1\nDELIVER 1\nDELIVER 1\nSCAN 2\n",
        ALL,
    ),
    (
        b"POST 0 TEST 00000001 Hello\nSCAN 0\nDELIVER 0\nSCAN 1\nDELIVER 1\nDELIVER 1\nDELIVER 1\nSCAN 2\n",
        ALL,
    ),
    (
        b"POST 0 TEST 00000001 Hello\nSCAN 0\nSCAN 1\nDELIVER 1\nDELIVER 1\nSCAN 2\nDELIVER 0\n",
        (&[(1, 0), (1, 1), (0, 0)], 1, 0, false),
    ),
    (
        b"POST 0 TEST 00000001 Hello\nSCAN 0\nDELIVER 0\nSCAN 1\nDELIVER 1\nSCAN 2\nDELIVER 1\n",
        ALL,
    ),
    (
        b"POST 0 TEST 00000001 Hello\nSCAN 0\nDELIVER 0\nSCAN 1\nDELIVER 1\nSCAN 2\nDELIVER 1\n",
        ALL,
    ),
];

#[test]
fn deliveries(rt: HostRuntime) -> Result<(), Fail> {
    for (i, (script, told)) in DELIVERIES.iter().enumerate() {
        assert!(rt; ends_so(rt.alloc(), CHAIN, script, *told)?, "row {i}");
    }
    Ok(())
}

/// The packet that the first system of the chain makes.
const PACKET: &[u8] = b"\
    \x01\0\x02\0\xd0\x07\0\0\x01\0\0\0\0\0\0\0\0\0\x02\0\
    \x0a\0\x0a\0\0\0\
    \0\0\0\0\0\0\0\0\
    \x01\0\x01\0\
    \0\0\0\0\0\0\0\0\0\0\0\0\0\0\0\0\0\0\0\0\
    \x02\0\x01\0\x02\0\x0a\0\x0a\0\0\0\0\0\
    01 Jan 00  00:00:00\0\
    All\0Sysop\000000001\0\
    AREA:TEST\r\
    \x01MSGID: 1:10/1 00000001\r\
    Hello\r\
    --- echonet\r\
    \x20* Origin: echonet (1:10/1)\r\
    SEEN-BY: 10/1 2\r\
    \x01PATH: 10/1\r\
    \0\
    \0\0";

/// The base of the second system when the packet came.
const RECEIVED: &[u8] = b"\
    ECHOBAS2\0\0\0\0\x01\0\0\0\
    \x01\x01\0\x0a\0\x01\001 Jan 00  00:00:00\0\
    \x03All\x05Sysop\x0800000001\
    \x6c\0\0\0\
    AREA:TEST\r\
    \x01MSGID: 1:10/1 00000001\r\
    Hello\r\
    --- echonet\r\
    \x20* Origin: echonet (1:10/1)\r\
    SEEN-BY: 10/1 2\r\
    \x01PATH: 10/1\r";

/// Whether packet 0 is this one for the second system, and there is no other.
fn has_packet(world: &World) -> bool {
    let second = Address {
        zone: 1,
        net: 10,
        node: 2,
    };
    world.packet(0) == Some(PACKET)
        && world.packet_destination(0) == Some(second)
        && world.packet(1).is_none()
        && world.packet_destination(1).is_none()
}

/// Whether the second system has its link file and the message, and nothing is told of what is not there.
fn has_message(world: &World) -> bool {
    let node = world.links(1).map(|links| links.system().node);
    let sender = match world.message(1, 0) {
        Some(message) => message.sender.map(|sender| sender.node),
        None => None,
    };
    (node, sender) == (Some(2), Some(1))
        && world.links(3).is_none()
        && world.message(1, 1).is_none()
        && world.message(3, 0).is_none()
        && (world.filed(3, b"TEST"), world.filed(1, b"test")) == (0, 0)
        && (world.waiting(3, b"TEST"), world.waiting(1, b"test")) == (0, 0)
}

#[test]
fn parts_of_a_world(rt: HostRuntime) -> Result<(), Fail> {
    let script = b"POST 0 TEST 00000001 Hello\nSCAN 0\nDELIVER 0\n";
    let world = world_after(rt.alloc(), CHAIN, script)?;
    assert!(rt; has_packet(&world));
    assert!(rt; has_message(&world));
    let mut file = Watched::new(Vec::new(rt.alloc()));
    assert!(rt; world.save(1, &mut file) == Some(Ok(())));
    assert!(rt; world.save(3, &mut file).is_none());
    assert!(rt; file.into_inner().as_slice() == RECEIVED);
    Ok(())
}
