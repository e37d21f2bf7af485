//! Verdicts on nets, and what a nodelist lacks.
use echo_addr::Address;
use echo_net::{Absence, Verdict, check, listed};
use echo_nodelist::Nodelist;
use echo_toss::LinkFile;
use std::alloc::Global;
use std::test::Fail;

/// The net of these link files.
pub(super) fn net(alloc: Global, texts: &[&[u8]]) -> Result<Vec<LinkFile>, Fail> {
    let mut files = Vec::new(alloc);
    for text in texts {
        files.push(LinkFile::read(alloc, text)?)?;
    }
    Ok(files)
}

/// The link file of the system 1:10/OWN with the area TEST and these links, each named once.
fn text_of(alloc: Global, own: u16, links: &[(u16, u16)]) -> Result<String, Fail> {
    let mut text = format!(in alloc; "SYSTEM 1:10/{own}\nAREA TEST")?;
    for (one, other) in links {
        if *one == own {
            text.push_str(format!(in alloc; " 1:10/{other}")?.as_str())?;
        }
        if *other == own {
            text.push_str(format!(in alloc; " 1:10/{one}")?.as_str())?;
        }
    }
    Ok(text)
}

/// The net of so many systems with these links.
fn linked(alloc: Global, systems: u16, links: &[(u16, u16)]) -> Result<Vec<LinkFile>, Fail> {
    let mut files = Vec::new(alloc);
    for before in 0..systems {
        let text = text_of(alloc, before.wrapping_add(1), links)?;
        files.push(LinkFile::read(alloc, text.as_bytes())?)?;
    }
    Ok(files)
}

/// Whether the verdict on the area is told so.
fn is_judged(alloc: Global, files: &[LinkFile], tag: &[u8], wanted: &str) -> Result<bool, Fail> {
    let text = match check(alloc, files, tag)? {
        Verdict::Yes { systems, links } => { format!(in alloc; "{systems} systems {links} links")? }
        Verdict::No(fault) => fault.to_string(alloc)?,
    };
    Ok(text.as_str() == wanted)
}

/// How many systems 1:10/1, 1:10/2 and so on there are, their links, and the verdict on the area TEST.
const LINKED: &[(u16, &[(u16, u16)], &str)] = &[
    (3, &[(1, 2), (2, 3)], "3 systems 2 links"),
    (1, &[], "1 systems 0 links"),
    (4, &[(1, 2), (2, 3), (3, 1)], "V7 Apart 1:10/1 1:10/4"),
    (
        4,
        &[(1, 3), (3, 2), (2, 4), (4, 1)],
        "V8 Loop 1:10/1 1:10/3 1:10/2 1:10/4",
    ),
    (3, &[(1, 2), (2, 3), (3, 1)], "3 systems 3 links"),
    (
        4,
        &[(1, 2), (1, 3), (1, 4), (2, 3), (2, 4), (3, 4)],
        "4 systems 6 links",
    ),
    (
        5,
        &[(1, 2), (2, 3), (3, 1), (3, 4), (4, 5), (5, 3)],
        "5 systems 6 links",
    ),
    (4, &[(1, 2), (2, 3), (3, 4), (4, 2)], "4 systems 4 links"),
    (
        7,
        &[
            (1, 2),
            (1, 5),
            (2, 3),
            (3, 4),
            (4, 2),
            (5, 6),
            (6, 7),
            (7, 5),
        ],
        "7 systems 8 links",
    ),
    (
        4,
        &[(1, 2), (2, 3), (3, 4), (4, 1), (1, 3)],
        "V8 Loop 1:10/1 1:10/2 1:10/3 1:10/4",
    ),
];

#[test]
fn verdicts_on_links(rt: HostRuntime) -> Result<(), Fail> {
    for (i, (systems, links, wanted)) in LINKED.iter().enumerate() {
        let files = linked(rt.alloc(), *systems, links)?;
        assert!(rt; is_judged(rt.alloc(), &files, b"TEST", wanted)?, "row {i}");
    }
    Ok(())
}

/// Link files, a tag, and the verdict on its area.
const FILES: &[(&[&[u8]], &[u8], &str)] = &[
    (
        &[
            b"SYSTEM 1:10/1\nAREA TEST 1:10/5",
            b"SYSTEM 1:10/5\nAREA TEST 1:10/1 2:10/1",
            b"SYSTEM 2:10/1\nAREA TEST 1:10/5",
        ],
        b"TEST",
        "V6 SameNetNode 1:10/1 2:10/1",
    ),
    (&[b"SYSTEM 1:10/1\nAREA TEST"], b"OTHER", "V1 NoSuchArea"),
    (&[b"SYSTEM 1:10/1\nAREA TEST"], b"test", "V1 NoSuchArea"),
    (
        &[b"SYSTEM 1:10/1\nAREA TEST", b"SYSTEM 1:10/1"],
        b"TEST",
        "V2 TwoFiles 1:10/1",
    ),
    (
        &[b"SYSTEM 1:10/1\nAREA TEST 1:10/1 1:10/9"],
        b"TEST",
        "V3 SelfLink 1:10/1",
    ),
    (
        &[b"SYSTEM 1:10/1\nAREA TEST 1:10/9"],
        b"TEST",
        "V4 Unknown 1:10/1 1:10/9",
    ),
    (
        &[
            b"SYSTEM 1:10/1\nAREA TEST 1:10/2",
            b"SYSTEM 1:10/2\nAREA TEST",
        ],
        b"TEST",
        "V5 OneSided 1:10/1 1:10/2",
    ),
];

#[test]
fn verdicts_on_files(rt: HostRuntime) -> Result<(), Fail> {
    for (i, (texts, tag, wanted)) in FILES.iter().enumerate() {
        let files = net(rt.alloc(), texts)?;
        assert!(rt; is_judged(rt.alloc(), &files, tag, wanted)?, "row {i}");
    }
    Ok(())
}

const CHAIN: &[&[u8]] = &[
    b"SYSTEM 1:10/300\nAREA TEST 1:10/200",
    b"SYSTEM 1:10/101\nAREA TEST 1:10/200",
    b"SYSTEM 1:10/200\nAREA TEST 1:10/101 1:10/300",
];

/// Two nets, of which 1:10/200 is down.
const NODES: &[u8] = b"\
    Zone,1,a,b,c,d,9600\n\
    Host,10,a,b,c,d,9600\n\
    Hub,100,a,b,c,d,9600\n\
    ,101,a,b,c,d,9600\n\
    Pvt,102,a,b,c,d,9600\n\
    Down,200,a,b,c,d,9600\n\
    Region,13,a,b,c,d,9600\n\
    ,5,a,b,c,d,9600\n\
    Host,20,a,b,c,d,9600\n\
    ,1,a,b,c,d,9600\n";

/// Whether 1:10/200 is down and 1:10/300 is missing, in this order.
fn are_down_and_missing(found: &[(Address, Absence)]) -> bool {
    match found {
        [(one, Absence::Down), (other, Absence::Missing)] => {
            (one.node, other.node) == (200, 300)
        }
        _ => false,
    }
}

#[test]
fn nodelist_beside_a_chain(rt: HostRuntime) -> Result<(), Fail> {
    let files = net(rt.alloc(), CHAIN)?;
    let nodes = Nodelist::read(rt.alloc(), NODES)?;
    let found = listed(rt.alloc(), &files, &nodes, b"TEST")?;
    assert!(rt; are_down_and_missing(&found));
    assert!(rt; listed(rt.alloc(), &files, &nodes, b"OTHER")?.is_empty());
    Ok(())
}
