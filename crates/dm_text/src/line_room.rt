//! Lines of hexadecimal, with or without spaces, read in room that is used again from line to line.
ghost use Rattle.std.specs.Prelude.{◌≡◌, IfOk, OnOk, true};
ghost use Rattle.std.specs.Option.{option_map};
ghost use Rattle.dm_text.specs.Hexadecimal.{line_octets, without_spaces};

use crate::hexadecimal::set_octets_from_hex;
use memchr::memchr;
use std::alloc::{AllocError, Global};

/// Room for one line of hexadecimal at a time. What it holds doesn't matter to the next line.
#[derive(Drop)]
pub struct LineRoom {
    /// The digits of a line that has spaces among them.
    digits: Vec<u8>,
    /// The octets of the line.
    octets: Vec<u8>,
}

/// True only where no octet of the line is a space.
fn has_no_space(line: &[u8]) -> bool
    ensures { result ≡ true → without_spaces line.now ≡ line.now }
{
    match memchr(b' ', line) {
        None => true,
        Some(_) => false,
    }
}

/// Puts the line into `digits` with its spaces taken out.
fn set_digits_without_spaces(line: &[u8], digits: &mut Vec<u8>) -> Result<(), AllocError>
    ensures { OnOk result (digits.new.items ≡ without_spaces line.now) }
{
    digits.clear();
    for octet in line {
        if *octet != b' ' {
            digits.push(*octet)?;
        }
    }
    Ok(())
}

impl LineRoom {
    /// Room for lines. It takes its memory as they come.
    pub fn new(alloc: Global) -> LineRoom {
        LineRoom {
            digits: Vec::new(alloc),
            octets: Vec::new(alloc),
        }
    }

    /// The octets that a line of hexadecimal digits in either case stands for. Spaces don't count.
    ///
    /// None where a digit is bad or their number is odd.
    pub fn read_spaced_hex(&mut self, line: &[u8]) -> Result<Option<&[u8]>, AllocError>
        ensures { IfOk result (λ octets. option_map (λ o. o.now) octets ≡ line_octets line.now) }
    {
        let good = if has_no_space(line) {
            set_octets_from_hex(line, &mut self.octets)?
        } else {
            set_digits_without_spaces(line, &mut self.digits)?;
            set_octets_from_hex(self.digits.as_slice(), &mut self.octets)?
        };
        if good {
            Ok(Some(self.octets.as_slice()))
        } else {
            Ok(None)
        }
    }
}
