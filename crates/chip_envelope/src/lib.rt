// The volume envelope of a square or the noise.
#![tactic(auto)]

ghost use Rattle.std.specs.Prelude.{◌≡◌};
ghost use Rattle.chip_envelope.specs.Envelope.{envelope_started, decayed, envelope_divided, envelope_clock, volume, envelope_set, envelope_begun, envelope_in, envelope_on};

// `looped` is also the halt flag of the channel's length; `n` is the volume or the divider's period less one.
#[derive(Clone, Copy)]
pub struct Envelope {
    pub looped: bool,
    pub constant: bool,
    pub n: u8,
    pub start: bool,
    pub divider: u8,
    pub counter: u8,
}

#[tactic(auto, unfolding(crate::specs::Envelope::decayed))]
fn decayed_from(looped: bool, counter: u8) -> u8
    ensures { result ≡ decayed looped counter }
{
    if 0 < counter {
        counter - 1
    } else if looped {
        15
    } else {
        0
    }
}

impl Envelope {
    // The envelope at power-on.
    pub fn power_on() -> Envelope
        ensures { result ≡ envelope_on }
    {
        Envelope {
            looped: false,
            constant: false,
            n: 0,
            start: false,
            divider: 1,
            counter: 0,
        }
    }

    #[tactic(auto, unfolding(crate::specs::Envelope::envelope_started))]
    fn started(self) -> Envelope
        ensures { result ≡ envelope_started self }
    {
        Envelope {
            start: false,
            divider: self.n % 16 + 1,
            counter: 15,
            ..self
        }
    }

    #[tactic(auto, unfolding(crate::specs::Envelope::envelope_divided))]
    fn divided(self) -> Envelope
        ensures { result ≡ envelope_divided self }
    {
        let mut e = self;
        e.divider = divider::tick_u8(self.n % 16 + 1, self.divider);
        if self.divider <= 1 {
            e.counter = decayed_from(self.looped, self.counter);
        }
        e
    }

    // One clock of the frame sequencer.
    #[tactic(auto, unfolding(crate::specs::Envelope::envelope_clock))]
    pub fn clocked(self) -> Envelope
        ensures { result ≡ envelope_clock self }
    {
        if self.start {
            self.started()
        } else {
            self.divided()
        }
    }

    // The volume: n if constant, else the counter.
    #[tactic(auto, unfolding(crate::specs::Envelope::volume))]
    pub fn volume_of(self) -> u8
        ensures { result ≡ volume self }
    {
        if self.constant { self.n } else { self.counter }
    }

    // The channel's first register written.
    #[tactic(auto, unfolding(crate::specs::Envelope::envelope_set))]
    pub fn set(self, value: u8) -> Envelope
        ensures { result ≡ envelope_set value self }
    {
        Envelope {
            looped: value / 32 % 2 == 1,
            constant: value / 16 % 2 == 1,
            n: value % 16,
            ..self
        }
    }

    // The channel's fourth register written.
    #[tactic(auto, unfolding(crate::specs::Envelope::envelope_begun))]
    pub fn begun(self) -> Envelope
        ensures { result ≡ envelope_begun self }
    {
        Envelope {
            start: true,
            ..self
        }
    }

    // Whether every field is in its range.
    #[tactic(auto, unfolding(crate::specs::Envelope::envelope_in))]
    pub fn in_range(self) -> bool
        ensures { result ≡ envelope_in self }
    {
        self.n <= 15 && 1 <= self.divider && self.divider <= 16 && self.counter <= 15
    }
}
