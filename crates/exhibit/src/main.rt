//! Reads an order from standard input, one `key value` a line, and prints the header frame that it asks for:
//! 240 hexadecimal digits, or with the argument `--raw` its 120 bytes.
#![tactic(auto)]

use anyhow::{anyhow, bail};
use frame::header::write_header;
use layout::FRAME_BYTES;
use order::Order;
use std::env;
use std::io::{Read, Write};
use std::process::ExitCode;

/// Whether the frame is wanted as bytes.
fn wants_raw(rt: &HostRuntime) -> anyhow::Result<bool> {
    let mut raw = false;
    for word in env::args(rt)?.skip(1) {
        if word.as_str() != "--raw" {
            bail!("unknown argument {word}");
        }
        raw = true;
    }
    Ok(raw)
}

/// The order that the lines of a text make; the first refused line ends it, and is named by its number.
fn read_order(text: &[u8]) -> anyhow::Result<Order> {
    let mut order = Order::new();
    for (i, line) in text.split(|b| *b == b'\n').enumerate() {
        order
            .line(line)
            .map_err(|cause| anyhow!("line {}: {cause}", i + 1))?;
    }
    Ok(order)
}

fn header_of(order: &Order) -> anyhow::Result<[u8; FRAME_BYTES]> {
    let mut frame = [0; FRAME_BYTES];
    let written = write_header(&mut frame, &order.message, order.mode, &order.settings);
    written.map_err(|fault| anyhow!("refused with {fault}"))?;
    Ok(frame)
}

fn run(rt: &HostRuntime) -> anyhow::Result<()> {
    let raw = wants_raw(rt)?;
    let mut text = Vec::new(rt.alloc());
    rt.stdin().read_to_end(&mut text)?;
    let frame = header_of(&read_order(&text)?)?;
    if raw {
        rt.stdout().write_all(&frame)?;
        return Ok(());
    }
    println!(rt; "{}", hex::encode_upper(rt.alloc(), frame)?)?;
    Ok(())
}

// No returned error: the message begins with the program's name.
fn main(rt: HostRuntime) -> anyhow::Result<ExitCode> {
    if let Err(error) = run(&rt) {
        eprintln!(rt; "exhibit: {error}")?;
        return Ok(ExitCode::FAILURE);
    }
    Ok(ExitCode::SUCCESS)
}
