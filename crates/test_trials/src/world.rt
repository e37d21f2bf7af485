//! What a replay leaves, to be compared with what the commands leave on files.
//!
//! Words: `FOLDER SCRIPT LINKS..`. The script is replayed on the net of these link files. The base file of
//! the system of index I goes to FOLDER/I.base, the bytes of packet K to FOLDER/K.pkt, both from 0; how
//! many there are and their bytes are printed. Without words a small net is replayed, and nothing is
//! written.
use anyhow::{Result, bail};
use disk_io::{Sink, Watched};
use echo_links::LinkFile;
use echo_net::{World, read_script, replay_with};
use std::alloc::Global;
use std::fs;
use std::hash::RandomState;

/// The net without words: two systems, and a message that goes from one to the other.
const FILES: [&[u8]; 2] = [
    b"SYSTEM 1:10/1\nNAME Alpha\nAREA TEST 1:10/2\n",
    b"SYSTEM 1:10/2\nAREA TEST 1:10/1\n",
];

const SCRIPT: &[u8] = b"POST 0 TEST 00000001 Hello\nSCAN 0\nDELIVER 0\n";

fn save<W: Sink>(world: &World<RandomState>, system: usize, writer: &mut W) -> Result<()> {
    match world.save(system, writer) {
        Some(saved) => Ok(saved?),
        None => bail!("no such system"),
    }
}

fn base_of(alloc: Global, world: &World<RandomState>, system: usize) -> Result<Vec<u8>> {
    let mut writer = Watched::new(Vec::new(alloc));
    save(world, system, &mut writer)?;
    Ok(writer.into_inner())
}

/// Writes the bytes to a file of the folder, if there is one, and returns their number.
fn put(rt: &HostRuntime, folder: Option<&String>, name: &String, bytes: &[u8]) -> Result<u64> {
    if let Some(folder) = folder {
        let path = format!(in rt.alloc(); "{folder}/{name}")?;
        fs::write(rt, path.as_str(), bytes)?;
    }
    Ok(bytes.len() as u64)
}

fn put_bases(rt: &HostRuntime, folder: Option<&String>, world: &World<RandomState>) -> Result<u64> {
    let mut all = 0u64;
    for system in 0..world.systems() {
        let bytes = base_of(rt.alloc(), world, system)?;
        let name = format!(in rt.alloc(); "{system}.base")?;
        all = all.wrapping_add(put(rt, folder, &name, &bytes)?);
    }
    Ok(all)
}

fn put_packets(
    rt: &HostRuntime,
    folder: Option<&String>,
    world: &World<RandomState>,
) -> Result<u64> {
    let mut all = 0u64;
    for packet in 0..world.packets() {
        if let Some(bytes) = world.packet(packet) {
            let name = format!(in rt.alloc(); "{packet}.pkt")?;
            all = all.wrapping_add(put(rt, folder, &name, bytes)?);
        }
    }
    Ok(all)
}

fn leave(
    rt: &HostRuntime,
    folder: Option<&String>,
    events: usize,
    world: &World<RandomState>,
) -> Result<()> {
    let bases = put_bases(rt, folder, world)?;
    let packets = put_packets(rt, folder, world)?;
    println!(rt;
        "world {events} events {} bases of {bases} bytes {} packets of {packets} bytes",
        world.systems(),
        world.packets()
    )?;
    Ok(())
}

fn run_on(
    rt: &HostRuntime,
    folder: Option<&String>,
    script: &[u8],
    files: Vec<LinkFile>,
) -> Result<()> {
    let events = read_script(rt.alloc(), script)?;
    let world = replay_with(rt.alloc(), files, &events, RandomState::new(rt)?)?;
    leave(rt, folder, events.len(), &world)
}

fn read_files(rt: &HostRuntime, paths: &[String]) -> Result<Vec<LinkFile>> {
    let mut files = Vec::new(rt.alloc());
    for path in paths {
        let bytes = fs::read(rt, path.as_str())?;
        files.push(LinkFile::read(rt.alloc(), &bytes)?)?;
    }
    Ok(files)
}

fn small_net(alloc: Global) -> Result<Vec<LinkFile>> {
    let mut files = Vec::new(alloc);
    for bytes in FILES {
        files.push(LinkFile::read(alloc, bytes)?)?;
    }
    Ok(files)
}

pub(crate) fn run(rt: &HostRuntime, words: &[String]) -> Result<()> {
    match words {
        [folder, path, links @ ..] => {
            let script = fs::read(rt, path.as_str())?;
            run_on(rt, Some(folder), &script, read_files(rt, links)?)
        }
        _ => run_on(rt, None, SCRIPT, small_net(rt.alloc())?),
    }
}
