//! Message ids.
use echo_addr::Address;
use echo_text::{MsgId, TextFault};
use std::alloc::{AllocError, Global};
use std::test::Fail;

/// An id: its origin, whether that was quoted, its serial, and the origin without quotes.
type Id = (&'static [u8], bool, u32, &'static [u8]);

const IDS: &[(&[u8], Id)] = &[
    (b"1:10/1 0000ABCD", (b"1:10/1", false, 43_981, b"1:10/1")),
    (
        b" \t1:10/1   0000abcd\n ",
        (b"1:10/1", false, 43_981, b"1:10/1"),
    ),
    (
        b"\"a \"\"b\"\"\" 00000001",
        (b"a \"\"b\"\"", true, 1, b"a \"b\""),
    ),
    (b"\"\" ffffFFFF", (b"", true, 4_294_967_295, b"")),
    (b"a\"\"b 00000000", (b"a\"\"b", false, 0, b"a\"\"b")),
];

fn is_id(alloc: Global, bytes: &[u8], wanted: &Id) -> Result<bool, AllocError> {
    let (origin, quoted, serial, plain) = *wanted;
    match MsgId::read(bytes) {
        Ok(id) => {
            let found = id.plain(alloc)?;
            Ok(
                (id.origin, id.quoted, id.serial) == (origin, quoted, serial)
                    && found.as_slice() == plain,
            )
        }
        Err(_) => Ok(false),
    }
}

#[test]
fn ids(rt: HostRuntime) -> Result<(), Fail> {
    for (i, (bytes, wanted)) in IDS.iter().enumerate() {
        assert!(rt; is_id(rt.alloc(), bytes, wanted)?, "row {i}");
    }
    Ok(())
}

const NO_IDS: &[&[u8]] = &[
    b"1:10/1 123",
    b"",
    b"00000001",
    b" 00000001",
    b"a\t00000001",
    b"a\t 00000001",
    b"a b 00000001",
    b"\"a\"b\" 00000001",
    b"a 0000000g",
    b"a 000000001",
    b"\"a\0b\" 00000001",
    b"\"a\rb\" 00000001",
];

#[test]
fn no_ids(rt: HostRuntime) {
    for (i, bytes) in NO_IDS.iter().enumerate() {
        assert!(rt; MsgId::read(bytes) == Err(TextFault::BadMsgId), "row {i}");
    }
}

const OWN_IDS: &[(u32, &[u8])] = &[(1, b"1:10/1 00000001"), (43_981, b"1:10/1 0000abcd")];

#[test]
fn own_ids(rt: HostRuntime) -> Result<(), Fail> {
    let address = Address {
        zone: 1,
        net: 10,
        node: 1,
    };
    for (serial, wanted) in OWN_IDS {
        let id = MsgId::write(rt.alloc(), address, *serial)?;
        assert!(rt; id.as_slice() == *wanted, "{serial}");
    }
    Ok(())
}
