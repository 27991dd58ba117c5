//! A digest of results.
use byteorder::{ByteOrder, LittleEndian};

/// A number that another result, or another order of them, would change.
#[derive(Clone, Copy, Drop)]
pub struct Digest {
    value: u64,
}

impl Digest {
    pub fn new() -> Digest {
        Digest { value: 0 }
    }

    pub fn value(&self) -> u64 {
        self.value
    }

    pub fn add(&mut self, number: u64) {
        self.value = (self.value.rotate_left(5) ^ number).wrapping_mul(0x9e37_79b9_7f4a_7c15);
    }

    /// Adds octets, eight at a time, and how many they are.
    pub fn add_octets(&mut self, octets: &[u8]) {
        self.add(octets.len() as u64);
        let eights = octets.chunks_exact(8);
        let rest = eights.remainder();
        for eight in eights {
            self.add(LittleEndian::read_u64(eight));
        }
        for octet in rest {
            self.add(u64::from(*octet));
        }
    }
}
