//! A message that is written AVP by AVP.
use crate::chance::Chance;
use anyhow::Result;
use std::alloc::Global;

/// Puts octets in place of those that stand from here on, as far as there are any.
pub fn put(octets: &mut Vec<u8>, at: usize, bytes: &[u8]) {
    if at < octets.len() {
        let places = &mut octets.as_mut_slice()[at..];
        for (place, octet) in places.iter_mut().zip(bytes) {
            *place = *octet;
        }
    }
}

/// The octets so far, and where each AVP begins.
#[derive(Drop)]
pub struct Draft {
    octets: Vec<u8>,
    places: Vec<usize>,
}

impl Draft {
    pub fn new(alloc: Global) -> Draft {
        Draft {
            octets: Vec::new(alloc),
            places: Vec::new(alloc),
        }
    }

    pub fn done(self) -> (Vec<u8>, Vec<usize>) {
        (self.octets, self.places)
    }

    /// The header (RFC 6733, 3).
    pub fn begin(&mut self, flags: u8, command: u32, application: u32) -> Result<()> {
        self.octets.extend_from_slice(&[1, 0, 0, 0])?;
        self.octets.extend_from_slice(&command.to_be_bytes())?;
        self.octets.extend_from_slice(&application.to_be_bytes())?;
        self.octets.extend_from_slice(&[0; 8])?;
        put(&mut self.octets, 4, &[flags]);
        Ok(())
    }

    /// The Message Length.
    pub fn end(&mut self) -> Result<()> {
        self.put_length(0, 1);
        Ok(())
    }

    /// Puts the length of what stands from here on so many octets behind.
    fn put_length(&mut self, at: usize, behind: usize) {
        let length = self.octets.len().saturating_sub(at);
        let [_, high, middle, low] = u32::try_from(length).unwrap_or(0).to_be_bytes();
        put(
            &mut self.octets,
            at.saturating_add(behind),
            &[high, middle, low],
        );
    }

    /// The header of an AVP (RFC 6733, 4.1), and where it begins.
    pub fn open(&mut self, code: u32, flags: u8) -> Result<usize> {
        let at = self.octets.len();
        self.places.push(at)?;
        self.octets.extend_from_slice(&code.to_be_bytes())?;
        self.octets.extend_from_slice(&[flags, 0, 0, 0])?;
        Ok(at)
    }

    /// The AVP Length of the AVP that begins here, and its padding.
    pub fn close(&mut self, at: usize) -> Result<()> {
        self.put_length(at, 5);
        for _ in 0..self.octets.len().wrapping_neg() % 4 {
            self.octets.push(0)?;
        }
        Ok(())
    }

    /// An AVP of these octets.
    fn avp(&mut self, code: u32, data: &[u8]) -> Result<()> {
        let at = self.open(code, 0x40)?;
        self.octets.extend_from_slice(data)?;
        self.close(at)
    }

    /// An AVP of this text but for so many of its last octets.
    pub fn text(&mut self, code: u32, text: &[u8], less: usize) -> Result<()> {
        let length = text.len().saturating_sub(less);
        self.avp(code, text.get(..length).unwrap_or(text))
    }

    /// An AVP of this text that needn't be understood.
    pub fn optional(&mut self, code: u32, text: &[u8]) -> Result<()> {
        let at = self.open(code, 0)?;
        self.octets.extend_from_slice(text)?;
        self.close(at)
    }

    pub fn number(&mut self, code: u32, number: u32) -> Result<()> {
        self.avp(code, &number.to_be_bytes())
    }

    /// An AVP whose M bit isn't set.
    pub fn plain(&mut self, code: u32, number: u32) -> Result<()> {
        let at = self.open(code, 0)?;
        self.octets.extend_from_slice(&number.to_be_bytes())?;
        self.close(at)
    }

    pub fn long(&mut self, code: u32, number: u64) -> Result<()> {
        self.avp(code, &number.to_be_bytes())
    }

    /// So many digits by chance.
    pub fn digits(&mut self, code: u32, count: u32, chance: &mut Chance) -> Result<()> {
        let at = self.open(code, 0x40)?;
        for _ in 0..count {
            self.octets.push(b'0' + chance.below(10) as u8)?;
        }
        self.close(at)
    }

    /// The header of an AVP of a vendor, and where it begins.
    pub fn open_of(&mut self, code: u32, vendor: u32) -> Result<usize> {
        let at = self.open(code, 0xc0)?;
        self.octets.extend_from_slice(&vendor.to_be_bytes())?;
        Ok(at)
    }

    /// Data of the AVP that is open.
    pub fn data(&mut self, data: &[u8]) -> Result<()> {
        self.octets.extend_from_slice(data)?;
        Ok(())
    }

    /// An AVP of a vendor.
    pub fn vendor(&mut self, code: u32, vendor: u32, flags: u8, number: u32) -> Result<()> {
        let at = self.open(code, flags)?;
        self.octets.extend_from_slice(&vendor.to_be_bytes())?;
        self.octets.extend_from_slice(&number.to_be_bytes())?;
        self.close(at)
    }
}
