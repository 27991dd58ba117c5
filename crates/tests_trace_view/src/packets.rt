//! Captures of packets over raw IP.
use std::alloc::{AllocError, Global};

/// So many microseconds behind 02:15 on 23 November 2026; the ports of the packet's sender and receiver; its control
/// bits (`S`, `F`, `R`; with `M` it is the first of several fragments, with `C` ten more octets weren't captured); its
/// number; and its octets in hexadecimal.
pub type Row = (u32, u16, u16, &'static str, u32, &'static str);

/// The octets of both headers.
const HEADERS: usize = 40;

/// What is in front of the first packet (pcap, microseconds, raw IP).
const FILE: &str = "a1b2c3d40002000400000000000000000004000000000065";

/// 10.0.0.2 is where port 3868 is.
fn address_of(port: u16) -> u32 {
    if port == 3868 {
        0x0a00_0002
    } else {
        0x0a00_0001
    }
}

fn bit(control: &str, letter: char, value: u16) -> u16 {
    if control.contains(letter) { value } else { 0 }
}

/// Appends the digits of a record's header.
fn put_record(
    alloc: Global,
    digits: &mut String,
    row: &Row,
    there: usize,
    sent: usize,
) -> Result<(), AllocError> {
    let line = format!(in alloc; "6b03a1a4{:08x}{there:08x}{sent:08x}", row.0)?;
    digits.push_str(line.as_str())
}

/// Appends the digits of the headers of IP (RFC 791, 3.1) and TCP (RFC 9293, 3.1).
fn put_headers(
    alloc: Global,
    digits: &mut String,
    row: &Row,
    sent: usize,
) -> Result<(), AllocError> {
    let (_, from, to, control, sequence, _) = *row;
    let more = bit(control, 'M', 0x2000);
    let (source, destination) = (address_of(from), address_of(to));
    let network = format!(in alloc;
        "4500{sent:04x}0000{more:04x}40060000{source:08x}{destination:08x}"
    )?;
    digits.push_str(network.as_str())?;
    drop(network);
    let bits = bit(control, 'F', 1) | bit(control, 'S', 2) | bit(control, 'R', 4);
    let transport = format!(in alloc;
        "{from:04x}{to:04x}{sequence:08x}0000000050{bits:02x}ffff00000000"
    )?;
    digits.push_str(transport.as_str())
}

/// Appends the digits of a packet.
fn put_packet(alloc: Global, digits: &mut String, row: &Row) -> Result<(), AllocError> {
    let there = (row.5.len() / 2).saturating_add(HEADERS);
    let lacks = bit(row.3, 'C', 10);
    let sent = there.saturating_add(usize::from(lacks));
    put_record(alloc, digits, row, there, sent)?;
    put_headers(alloc, digits, row, sent)?;
    digits.push_str(row.5)
}

/// The digits of a capture of these packets, with more octets behind.
pub fn digits_of(alloc: Global, rows: &[Row], behind: &str) -> Result<String, AllocError> {
    let mut digits = String::new(alloc);
    digits.push_str(FILE)?;
    for row in rows {
        put_packet(alloc, &mut digits, row)?;
    }
    digits.push_str(behind)?;
    Ok(digits)
}
