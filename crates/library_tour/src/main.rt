//! A tour of the library: two systems, from their link files to a replay of their net. It prints what it got.
#![tactic(auto)]

use anyhow::Result;
use echo_addr::{Items, Watched};
use echo_net::{Verdict, check, listed, read_script, replay};
use echo_nodelist::Nodelist;
use echo_packet::{Limits, read_packet};
use echo_text::read_text;
use echo_toss::{Draft, LinkFile, Stamp, Tosser};
use std::alloc::Global;
use std::hash::RandomState;

const ALPHA: &[u8] = b"SYSTEM 1:10/1\nNAME Alpha\nAREA TEST 1:10/2\n";

const BETA: &[u8] = b"SYSTEM 1:10/2\nAREA TEST 1:10/1\n";

const STAMP: Stamp = Stamp {
    year: 2026,
    month: 7,
    day: 3,
    hour: 12,
    minute: 34,
    second: 56,
};

fn bytes(alloc: Global, text: &[u8]) -> Result<Items<u8>> {
    Ok(Items::new(Vec::from_slice(alloc, text)?))
}

fn hello(alloc: Global) -> Result<Draft> {
    Ok(Draft {
        to_name: bytes(alloc, b"All")?,
        from_name: bytes(alloc, b"Ann")?,
        subject: bytes(alloc, b"Hi")?,
        reply: bytes(alloc, b"")?,
        body: bytes(alloc, b"Hello")?,
    })
}

fn judge_and_replay(rt: &HostRuntime, alloc: Global) -> Result<()> {
    let mut files = Vec::new(alloc);
    files.push(LinkFile::read(alloc, ALPHA)?)?;
    files.push(LinkFile::read(alloc, BETA)?)?;
    if let Verdict::Yes { systems, links } = check(alloc, &files, b"TEST")? {
        println!(rt; "in order: {systems} systems, {links} links")?;
    }
    let nodes = Nodelist::read(alloc, b"Zone,1,Z,P,S,-,9600\r\n")?;
    let absent = listed(alloc, &files, &nodes, b"TEST")?;
    println!(rt; "not in the nodelist: {}", absent.len())?;
    let events = read_script(alloc, b"POST 0 TEST 00000001 Hello\nSCAN 0\nDELIVER 0\n")?;
    let world = replay(alloc, files, &events)?;
    Ok(println!(rt; "replayed: filed {} at Beta", world.filed(1, b"TEST"))?)
}

fn saved(rt: &HostRuntime, alpha: &Tosser<RandomState>) -> Result<Vec<u8>> {
    let mut file = Watched::new(Vec::new(rt.alloc()));
    alpha.save(&mut file)?;
    let base = file.into_inner();
    println!(rt; "posted and saved: a base of {} bytes", base.len())?;
    Ok(base)
}

fn show_and_toss(rt: &HostRuntime, bytes: &[u8], beta: &mut Tosser<RandomState>) -> Result<()> {
    println!(rt; "scanned: a packet of {} bytes", bytes.len())?;
    for message in &read_packet(rt.alloc(), bytes, Limits::NONE)?.1 {
        let (echo, _) = read_text(rt.alloc(), message.text())?;
        println!(rt; "its message was seen by {}", echo.seen.len())?;
    }
    let mut source = bytes;
    let tally = beta.toss(&mut source, Limits::NONE)?;
    Ok(println!(rt; "tossed: {tally:?}")?)
}

fn exchange(
    rt: &HostRuntime,
    alpha: &mut Tosser<RandomState>,
    beta: &mut Tosser<RandomState>,
) -> Result<()> {
    for packet in alpha.scan(STAMP)? {
        let bytes = packet.encode(rt.alloc())?;
        show_and_toss(rt, &bytes, beta)?;
    }
    Ok(())
}

fn post_and_load(
    rt: &HostRuntime,
    hasher: RandomState,
    alpha: &mut Tosser<RandomState>,
) -> Result<()> {
    alpha.post(b"TEST", &hello(rt.alloc())?, 1, STAMP)?;
    let base = saved(rt, alpha)?;
    let links = LinkFile::read(rt.alloc(), ALPHA)?;
    let again = Tosser::load(rt.alloc(), links, &mut base.as_slice(), hasher)?;
    let (filed, waiting) = (again.filed(), again.waiting());
    Ok(println!(rt; "loaded: filed {filed}, waiting {waiting}")?)
}

fn main(rt: HostRuntime) -> Result<()> {
    let (alloc, hasher) = (rt.alloc(), RandomState::new(&rt)?);
    judge_and_replay(&rt, alloc)?;
    let mut alpha = Tosser::new(alloc, LinkFile::read(alloc, ALPHA)?, hasher);
    let mut beta = Tosser::new(alloc, LinkFile::read(alloc, BETA)?, hasher);
    post_and_load(&rt, hasher, &mut alpha)?;
    exchange(&rt, &mut alpha, &mut beta)
}
