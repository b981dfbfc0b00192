// Dividers, for any period and any count: one tick, and g ticks in closed form.
#![tactic(auto)]

ghost use Rattle.std.specs.Prelude.{◌≡◌, ◌-◌, ◌/◌, ◌%◌};
ghost use Rattle.divider.specs.Divider.{tick, outputs, count_after};

// The count after a tick of a divider with period n.
pub fn tick_u8(n: u8, count: u8) -> u8
    ensures { result ≡ tick n count }
{
    if count <= 1 { n } else { count - 1 }
}

// The same for 16 bits: a type parameter with its bounds would put integers for numbers into the clause, and be no plainer.
pub fn tick_u16(n: u16, count: u16) -> u16
    ensures { result ≡ tick n count }
{
    if count <= 1 { n } else { count - 1 }
}

// A quotient, 0 where the divisor is 0.
fn quotient(a: u32, n: u32) -> u32
    ensures { result ≡ a / n }
{
    if n == 0 { 0 } else { a / n }
}

fn short_of(n: u64, a: u64) -> u64
    ensures { result ≡ n - a % n }
{
    if n == 0 { 0 } else { n - a % n }
}

// The outputs in g ticks of a divider with period n.
#[tactic(auto, unfolding(crate::specs::Divider::outputs))]
pub fn outputs_in(n: u32, count: u32, g: u32) -> u64
    ensures { result ≡ outputs n count g }
{
    if g < count {
        return 0;
    }
    u64::from(quotient(g - count, n)) + 1
}

// The count after g ticks of a divider with period n.
#[tactic(auto, unfolding(crate::specs::Divider::count_after))]
pub fn count_in(n: u64, count: u64, g: u64) -> u64
    ensures { result ≡ count_after n count g }
{
    if g < count {
        return count - g;
    }
    short_of(n, g - count)
}
