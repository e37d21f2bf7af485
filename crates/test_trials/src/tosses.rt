//! How fast a tosser files new messages in memory.
//!
//! Words: `ROUNDS PACKET LINKS`. Each round tosses the packet into an empty base of this link file. How many messages
//! the rounds filed is printed. Without words nothing is tossed.

use anyhow::{Context, Result, bail};
use echo_links::LinkFile;
use echo_packet::Limits;
use echo_toss::Tosser;
use std::fs;
use std::hash::RandomState;

fn toss_into(tosser: &mut Tosser<RandomState>, packet: &[u8]) -> Result<u64> {
    let mut source = packet;
    let tally = tosser.toss(&mut source, Limits::NONE)?;
    Ok(tally.filed)
}

fn toss_once(rt: &HostRuntime, packet: &[u8], links: &[u8]) -> Result<u64> {
    let links = LinkFile::read(rt.alloc(), links)?;
    let mut tosser = Tosser::new(rt.alloc(), links, RandomState::new(rt)?);
    toss_into(&mut tosser, packet)
}

fn toss_often(rt: &HostRuntime, rounds: usize, packet: &[u8], links: &[u8]) -> Result<u64> {
    let mut filed = 0u64;
    for _ in 0..rounds {
        filed = filed.wrapping_add(toss_once(rt, packet, links)?);
    }
    Ok(filed)
}

pub(crate) fn run(rt: &HostRuntime, words: &[String]) -> Result<()> {
    let filed = match words {
        [] => 0,
        [rounds, packet, links] => {
            let rounds = rounds.parse::<usize>().context("a number of rounds")?;
            let packet = fs::read(rt, packet.as_str())?;
            toss_often(rt, rounds, &packet, &fs::read(rt, links.as_str())?)?
        }
        _ => bail!("ROUNDS PACKET LINKS"),
    };
    println!(rt; "tosses filed {filed}")?;
    Ok(())
}
