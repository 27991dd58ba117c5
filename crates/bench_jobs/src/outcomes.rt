//! What came of messages, added to a digest.
use crate::digest::Digest;
use dm_dict::{Failed, Fault, Judged, LocatedFault, Verdict};
use dm_wire::{Avp, AvpRef};

impl Digest {
    pub fn add_code(&mut self, code: Option<u32>) {
        self.add(u64::from(code.unwrap_or(0)));
    }

    pub fn add_judged(&mut self, judged: Judged<'_>) {
        match judged {
            Judged::Good => self.add(6),
            Judged::Bad { code, failed } => {
                self.add(u64::from(code));
                self.add_failed(failed);
            }
        }
    }

    fn add_failed(&mut self, failed: Failed<'_>) {
        match failed {
            Failed::Nothing => self.add(7),
            Failed::Found(avp) => self.add_avp(avp),
            Failed::Example { code, zeros, .. } => {
                self.add(u64::from(code));
                self.add(u64::from(zeros));
            }
        }
    }

    pub fn add_faults(&mut self, faults: &[Fault<'_>]) {
        for fault in faults {
            self.add(u64::from(fault.code));
            self.add_failed(fault.failed);
        }
    }

    /// Faults, and how deep each lies.
    pub fn add_located(&mut self, faults: &[LocatedFault<'_>]) {
        for located in faults {
            self.add(located.path.as_slice().len() as u64);
            self.add(u64::from(located.fault.code));
            self.add_failed(located.fault.failed);
        }
    }

    pub fn add_verdict(&mut self, verdict: &Verdict) {
        match verdict {
            Verdict::Good => self.add(8),
            Verdict::Bad { code, failed } => {
                self.add(u64::from(*code));
                if let Some(avp) = failed {
                    self.add_avp(avp.borrowed());
                }
            }
        }
    }

    pub fn add_avps(&mut self, avps: &[Avp]) {
        for avp in avps {
            self.add_avp(avp.borrowed());
        }
    }

    /// An AVP's code, and of its data the length and the first octet.
    pub fn add_avp(&mut self, avp: AvpRef<'_>) {
        let first = avp.bytes.first().copied().unwrap_or(0);
        let length = avp.bytes.len() as u64;
        let front = u64::from(avp.code) ^ (u64::from(first) << 40);
        self.add(front ^ length.rotate_left(50));
    }
}
