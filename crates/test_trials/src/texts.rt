//! How fast echomail texts are parsed and written.
//!
//! Words: `KIND COUNT ROUNDS`. COUNT texts of about 1,200 bytes are made. `view` parses each ROUNDS times. `write`
//! parses each once and writes it ROUNDS times. `sum` adds the bytes of each as a yardstick.
ghost use Rattle.echo_text.specs.Echo.{HasNoZero};

use anyhow::{Context, Result, bail};
use echo_text::{Echo, read_text, view_text, write_text};
use std::alloc::{AllocError, Global};

const LINES: usize = 15;

const LINE: &[u8] = b" AB> The quick brown fox jumps over the lazy dog, and back.\r";

const END: &[u8] = b"--- echonet\r * Origin: A system of the net (1:10/100)\r";

const TAIL: &[u8] =
    b"SEEN-BY: 10/100 101 102 103 104 105 106 107 108 109 110 111 112 113 114 115 116\rSEEN-BY: 10/117 118 119 120 121 122 123 124 125 126 127 128 129 130 131 132 133\rSEEN-BY: 10/134 135 136 137 138 139 140 141 142 143 144 145 146 147 148 149 150\r\x01PATH: 10/100 101 102\r";

#[derive(Drop)]
struct Text {
    bytes: Vec<u8>,
    ghost no_zero: { HasNoZero bytes.items },
}

fn text_of(bytes: Vec<u8>) -> Option<Text> {
    if bytes.iter().all(|b| *b != 0) {
        Some(Text { bytes })
    } else {
        None
    }
}

fn bytes_of(alloc: Global, number: usize) -> Result<Vec<u8>, AllocError> {
    let mut all = Vec::new(alloc);
    all.extend_from_slice(b"AREA:BENCH.TEXTS\r")?;
    let id = format!(in alloc; "\x01MSGID: 1:10/100 {number:08x}\r")?;
    all.extend_from_slice(id.as_bytes())?;
    for _ in 0..LINES {
        all.extend_from_slice(LINE)?;
    }
    all.extend_from_slice(END)?;
    all.extend_from_slice(TAIL)?;
    Ok(all)
}

fn texts(alloc: Global, count: usize) -> Result<Vec<Text>> {
    let mut texts = Vec::new(alloc);
    for number in 0..count {
        let text = text_of(bytes_of(alloc, number)?).context("a text without 00")?;
        texts.push(text)?;
    }
    Ok(texts)
}

/// The bytes that were read or written, and a sum: of the entries in them, or of the bytes.
#[derive(Clone, Copy)]
struct Totals {
    bytes: u64,
    sum: u64,
}

impl Totals {
    fn add(&mut self, bytes: usize, sum: u64) {
        self.bytes = self.bytes.wrapping_add(bytes as u64);
        self.sum = self.sum.wrapping_add(sum);
    }
}

fn view(alloc: Global, text: &Text, totals: &mut Totals) -> Result<()> {
    let (echo, _) = view_text(alloc, &text.bytes)?;
    totals.add(text.bytes.len(), echo.seen.len() as u64);
    Ok(())
}

fn write(alloc: Global, echo: &Echo, totals: &mut Totals) -> Result<()> {
    let text = write_text(alloc, echo)?;
    totals.add(text.len(), echo.seen.len() as u64);
    Ok(())
}

fn add_bytes(text: &Text, totals: &mut Totals) {
    let sum = text
        .bytes
        .iter()
        .fold(0u64, |all, byte| all.wrapping_add(u64::from(*byte)));
    totals.add(text.bytes.len(), sum);
}

fn echoes(alloc: Global, texts: &[Text]) -> Result<Vec<Echo>> {
    let mut echoes = Vec::new(alloc);
    for text in texts {
        let (echo, _) = read_text(alloc, &text.bytes)?;
        echoes.push(echo)?;
    }
    Ok(echoes)
}

fn write_all(alloc: Global, echoes: &[Echo], rounds: usize, totals: &mut Totals) -> Result<()> {
    for _ in 0..rounds {
        for echo in echoes {
            write(alloc, echo, totals)?;
        }
    }
    Ok(())
}

fn read_all(alloc: Global, kind: &str, texts: &[Text], totals: &mut Totals) -> Result<()> {
    for text in texts {
        match kind {
            "view" => view(alloc, text, totals)?,
            "sum" => add_bytes(text, totals),
            _ => bail!("view, write or sum"),
        }
    }
    Ok(())
}

fn work(alloc: Global, kind: &str, texts: &[Text], rounds: usize) -> Result<Totals> {
    let mut totals = Totals { bytes: 0, sum: 0 };
    if kind == "write" {
        write_all(alloc, &echoes(alloc, texts)?, rounds, &mut totals)?;
    } else {
        for _ in 0..rounds {
            read_all(alloc, kind, texts, &mut totals)?;
        }
    }
    Ok(totals)
}

fn number(word: Option<&String>, otherwise: usize) -> Result<usize> {
    match word {
        Some(word) => word.parse::<usize>().context("a number"),
        None => Ok(otherwise),
    }
}

pub(crate) fn run(rt: &HostRuntime, words: &[String]) -> Result<()> {
    let kind = words.first().map_or("view", |word| word.as_str());
    let count = number(words.get(1), 16)?;
    let rounds = number(words.get(2), 1)?;
    let texts = texts(rt.alloc(), count)?;
    let totals = work(rt.alloc(), kind, &texts, rounds)?;
    println!(rt; "texts {kind} bytes {} sum {}", totals.bytes, totals.sum)?;
    Ok(())
}
