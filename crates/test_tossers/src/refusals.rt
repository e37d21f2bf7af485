//! A new system, and calls of a tosser that are refused memory. These leave the system as it was, and answer when they are
//! called again. Without a refusal each test shows that the call answers at once. `rt try --test --fail-alloc N` refuses
//! the Nth growth.
use crate::steps::{HELLO, STAMP, System, address, holds, post, toss};
use echo_packet::Limits;
use echo_toss::{
    LinkFault, LinkFile, PostFault, ReplyRule, ScanFault, Tally, TossCause, TossFault, Tosser,
};
use std::alloc::Global;
use std::hash::{BuildHasher, BuildHasherDefault};
use std::test::Fail;
use test_formats::samples::{ALPHA, BETA, EMPTY, FIRST, POSTED, PURGED};

/// The system of the link file, which has filed nothing.
fn system(alloc: Global, file: &[u8]) -> Result<System, LinkFault> {
    let links = LinkFile::read(alloc, file)?;
    Ok(Tosser::new(alloc, links, BuildHasherDefault::new()))
}

/// Whether the system was read from the link file of the first system.
fn is_alpha(links: &LinkFile) -> bool {
    links.system() == address(1)
        && links.name() == b"Alpha".as_slice()
        && links.areas() == 2
        && links.area(0) == Some(b"TEST".as_slice())
        && links.area(1) == Some(b"OTHER".as_slice())
        && links.area(2).is_none()
        && links.links(b"TEST") == Some([address(2)].as_slice())
        && links.links(b"test").is_none()
}

#[test]
fn new_system(rt: HostRuntime) -> Result<(), Fail> {
    let alpha = system(rt.alloc(), ALPHA)?;
    assert!(rt; is_alpha(alpha.links()));
    assert_eq!(rt; (alpha.filed(), alpha.waiting()), (0, 0));
    assert!(rt; alpha.message(0).is_none());
    Ok(())
}

/// The system of the link file, also if the first attempt was refused memory.
fn ready(alloc: Global, file: &[u8]) -> Result<System, Fail> {
    match system(alloc, file) {
        Ok(system) => Ok(system),
        Err(_) => Ok(system(alloc, file)?),
    }
}

/// Whether the system has the base file, of which the first attempt may be refused memory.
fn holds_at_last<S: BuildHasher>(alloc: Global, at: &Tosser<S>, base: &[u8]) -> bool {
    holds(alloc, at, base) || holds(alloc, at, base)
}

/// Whether a posting that is refused files nothing, and a second one does.
fn posts_again<S: BuildHasher>(alloc: Global, at: &mut Tosser<S>) -> bool {
    let left = match post(alloc, at, ReplyRule::EightDigits, &HELLO) {
        Ok(()) => true,
        Err(fault) => {
            fault == PostFault::Memory
                && holds(alloc, at, EMPTY)
                && post(alloc, at, ReplyRule::EightDigits, &HELLO) == Ok(())
        }
    };
    left && holds_at_last(alloc, at, POSTED)
}

/// How many packets a scan makes.
fn scan<S: BuildHasher>(at: &mut Tosser<S>) -> Result<usize, ScanFault> {
    match at.scan(STAMP) {
        Ok(packets) => Ok(packets.len()),
        Err(fault) => Err(fault),
    }
}

/// Whether a scan that is refused leaves the message waiting, and a second one takes it.
fn scans_again<S: BuildHasher>(alloc: Global, at: &mut Tosser<S>) -> bool {
    match scan(at) {
        Ok(packets) => packets == 1,
        Err(fault) => {
            fault == ScanFault::Memory && holds(alloc, at, POSTED) && scan(at) == Ok(1)
        }
    }
}

/// Whether a purge that is refused changes nothing, and a second one does.
fn purges_again<S: BuildHasher>(at: &mut Tosser<S>) -> bool {
    let purged = match at.purge() {
        Ok(count) => count == 1,
        Err(_) => at.purge() == Ok(1),
    };
    purged && at.purge() == Ok(0)
}

#[test]
fn refused_posting_scan_and_purge(rt: HostRuntime) -> Result<(), Fail> {
    let mut alpha = ready(rt.alloc(), ALPHA)?;
    assert!(rt; posts_again(rt.alloc(), &mut alpha));
    assert!(rt; scans_again(rt.alloc(), &mut alpha));
    assert!(rt; purges_again(&mut alpha));
    assert!(rt; holds_at_last(rt.alloc(), &alpha, PURGED));
    Ok(())
}

/// Whether a packet whose toss is refused memory files nothing and counts nothing, and is tossed then.
fn tosses_again<S: BuildHasher>(alloc: Global, at: &mut Tosser<S>) -> bool {
    let filed = Ok(Tally {
        filed: 1,
        ..Tally::NONE
    });
    let refused = Err(TossFault {
        tally: Tally::NONE,
        cause: TossCause::Memory,
    });
    let first = toss(at, FIRST, Limits::NONE);
    if first == refused {
        return holds(alloc, at, EMPTY) && toss(at, FIRST, Limits::NONE) == filed;
    }
    first == filed && at.filed() == 1
}

#[test]
fn refused_toss(rt: HostRuntime) -> Result<(), Fail> {
    let mut beta = ready(rt.alloc(), BETA)?;
    assert!(rt; tosses_again(rt.alloc(), &mut beta));
    Ok(())
}
