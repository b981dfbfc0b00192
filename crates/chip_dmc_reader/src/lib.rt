// The reader of the sample channel (DMC): what its registers hold, the address, the byte fetched, the interrupt flag.
#![tactic(auto)]

ghost use Rattle.std.specs.Prelude.{◌≡◌};
ghost use Rattle.arith.specs.Pick.{both};
ghost use Rattle.chip_dmc_reader.specs.Reader.{emptied, next_address, restarted, flagged, byte_at, fetched, sample_ended, pending, reader_clock, with_interrupt, with_remaining, switched, registers_in, reader_in};

// What the registers hold: interrupt enable, loop, period index, address byte, length byte.
#[derive(Clone, Copy)]
pub struct Registers {
    pub enable: bool,
    pub looped: bool,
    pub index: u8,
    pub start: u8,
    pub size: u8,
}

// The reader with its buffer and the interrupt flag.
#[derive(Clone, Copy)]
pub struct Reader {
    pub address: u16,
    pub remaining: u16,
    pub buffer: u8,
    pub full: bool,
    pub interrupt: bool,
}

// The byte of sample memory at an address.
#[tactic(auto, unfolding(crate::specs::Reader::byte_at))]
pub fn byte_of(memory: &[u8], address: u16) -> u8
    ensures { result ≡ byte_at memory.now address }
{
    let i = usize::from(address % 32768);
    memory.get(i).copied().unwrap_or(0)
}

// The address after one: after $FFFF comes $8000.
#[tactic(auto, unfolding(crate::specs::Reader::next_address))]
pub fn address_after(a: u16) -> u16
    ensures { result ≡ next_address a }
{
    if a < 0xFFFF { a + 1 } else { 0x8000 }
}

impl Registers {
    // Whether every field is in its range.
    #[tactic(auto, unfolding(crate::specs::Reader::registers_in))]
    pub fn in_range(self) -> bool
        ensures { result ≡ registers_in self }
    {
        self.index <= 15
    }
}

impl Reader {
    // Its buffer used up, or not.
    #[tactic(auto, unfolding(crate::specs::Reader::emptied))]
    pub fn after(self, taken: bool) -> Reader
        ensures { result ≡ emptied taken self }
    {
        Reader {
            full: !taken && self.full,
            ..self
        }
    }

    #[tactic(auto, unfolding(crate::specs::Reader::restarted))]
    fn restart(self, s: Registers) -> Reader
        ensures { result ≡ restarted s self }
    {
        Reader {
            address: u16::from(s.start) * 64 + 0xC000,
            remaining: u16::from(s.size) * 16 + 1,
            ..self
        }
    }

    #[tactic(auto, unfolding(crate::specs::Reader::flagged))]
    fn flagged_by(self, enable: bool) -> Reader
        ensures { result ≡ flagged enable self }
    {
        Reader {
            interrupt: enable || self.interrupt,
            ..self
        }
    }

    #[tactic(auto, unfolding(crate::specs::Reader::sample_ended))]
    fn ended_by(self, s: Registers) -> Reader
        ensures { result ≡ sample_ended s self }
    {
        if 0 < self.remaining {
            self
        } else if s.looped {
            self.restart(s)
        } else {
            self.flagged_by(s.enable)
        }
    }

    #[tactic(auto, unfolding(crate::specs::Reader::fetched))]
    fn fetch(self, memory: &[u8]) -> Reader
        ensures { result ≡ fetched memory.now self }
    {
        Reader {
            address: address_after(self.address),
            remaining: self.remaining.saturating_sub(1),
            buffer: byte_of(memory, self.address),
            full: true,
            ..self
        }
    }

    // Whether a fetch is due.
    #[tactic(auto, unfolding(crate::specs::Reader::pending))]
    pub fn waits(self) -> bool
        ensures { result ≡ pending self }
    {
        !self.full && 0 < self.remaining
    }

    // One clock of the reader.
    #[tactic(auto, unfolding(crate::specs::Reader::reader_clock))]
    pub fn clocked(self, memory: &[u8], s: Registers) -> Reader
        ensures { result ≡ reader_clock memory.now s self }
    {
        if self.waits() {
            self.fetch(memory).ended_by(s)
        } else {
            self
        }
    }

    // The interrupt flag kept or cleared.
    pub fn cleared(self, keep: bool) -> Reader
        ensures { result ≡ with_interrupt self (both keep self.interrupt) }
    {
        Reader {
            interrupt: keep && self.interrupt,
            ..self
        }
    }

    fn stopped(self) -> Reader
        ensures { result ≡ with_remaining self 0 }
    {
        Reader {
            remaining: 0,
            ..self
        }
    }

    // Its bit of $4015 written.
    #[tactic(auto, unfolding(crate::specs::Reader::switched))]
    pub fn switched_by(self, on: bool, s: Registers) -> Reader
        ensures { result ≡ switched on s self }
    {
        if !on {
            self.stopped()
        } else if self.remaining == 0 {
            self.restart(s)
        } else {
            self
        }
    }

    // Whether every field is in its range.
    #[tactic(auto, unfolding(crate::specs::Reader::reader_in))]
    pub fn in_range(self) -> bool
        ensures { result ≡ reader_in self }
    {
        32768 <= self.address && self.remaining <= 4081
    }
}
