//! The lists of such an object.

use crate::label::text_as;
use crate::members::write_number;
use echo_addr::NetNode;
use echo_charset::Charset;
use echo_text::{Echo, split_line};
use json::Writer;
use std::alloc::{AllocError, Global};

pub(crate) fn write_lists(
    writer: &mut Writer,
    alloc: Global,
    charset: Option<Charset>,
    echo: &Echo,
) -> Result<(), AllocError> {
    write_number(writer, "seen", echo.seen.len() as u64)?;
    write_nodes(writer, alloc, "seenby", echo.seen.as_slice())?;
    write_nodes(writer, alloc, "path", echo.path.as_slice())?;
    write_lines(writer, alloc, charset, echo.kept.as_text())
}

fn write_nodes(
    writer: &mut Writer,
    alloc: Global,
    name: &str,
    entries: &[NetNode],
) -> Result<(), AllocError> {
    writer.key(name)?;
    writer.begin_array()?;
    for entry in entries {
        let text = format!(in alloc; "{entry}")?;
        writer.string(text.as_str())?;
    }
    writer.end_array()
}

fn write_lines(
    writer: &mut Writer,
    alloc: Global,
    charset: Option<Charset>,
    kept: &[u8],
) -> Result<(), AllocError> {
    writer.key("lines")?;
    writer.begin_array()?;
    let mut rest = kept;
    'lines: while !rest.is_empty() {
        let (line, after) = split_line(rest);
        let text = text_as(alloc, charset, line)?;
        writer.string(text.as_str())?;
        rest = after;
    }
    writer.end_array()
}
