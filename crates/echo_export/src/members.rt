//! Members of an object of JSON.

use crate::label::text_as;
use echo_addr::Address;
use echo_charset::Charset;
use json::Writer;
use std::alloc::{AllocError, Global};

pub(crate) fn write_string(writer: &mut Writer, name: &str, text: &str) -> Result<(), AllocError> {
    writer.key(name)?;
    writer.string(text)
}

pub(crate) fn write_number(writer: &mut Writer, name: &str, n: u64) -> Result<(), AllocError> {
    writer.key(name)?;
    writer.u64(n)
}

pub(crate) fn write_text(
    writer: &mut Writer,
    alloc: Global,
    name: &str,
    charset: Option<Charset>,
    bytes: &[u8],
) -> Result<(), AllocError> {
    let text = text_as(alloc, charset, bytes)?;
    write_string(writer, name, text.as_str())
}

pub(crate) fn write_found(
    writer: &mut Writer,
    alloc: Global,
    name: &str,
    charset: Option<Charset>,
    found: Option<&[u8]>,
) -> Result<(), AllocError> {
    match found {
        Some(bytes) => write_text(writer, alloc, name, charset, bytes),
        None => write_null(writer, name),
    }
}

fn write_null(writer: &mut Writer, name: &str) -> Result<(), AllocError> {
    writer.key(name)?;
    writer.null()
}

pub(crate) fn write_address(
    writer: &mut Writer,
    alloc: Global,
    name: &str,
    address: Option<Address>,
) -> Result<(), AllocError> {
    match address {
        Some(address) => {
            let text = format!(in alloc; "{address}")?;
            write_string(writer, name, text.as_str())
        }
        None => write_null(writer, name),
    }
}
