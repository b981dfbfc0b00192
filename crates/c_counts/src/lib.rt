// The dwell table at the boundary: 128 lent words.
#![tactic(auto)]

ghost use Rattle.std.specs.Prelude.{◌≡◌};
ghost use Rattle.c_counts.specs.Counts.{table_of, counts_after};

// The table that 128 lent words are; an empty one where they are not as many.
#[tactic(auto, unfolding(crate::specs::Counts::table_of))]
pub fn decode(counts: &[u32]) -> [u32; 128]
    ensures { result ≡ table_of counts.now }
{
    let mut table = [0u32; 128];
    if counts.len() == 128 {
        table.copy_from_slice(counts);
    }
    table
}

// A table into 128 lent words.
#[tactic(auto, unfolding(crate::specs::Counts::counts_after))]
pub fn store(table: [u32; 128], counts: &mut [u32])
    ensures { counts.new ≡ counts_after table counts.old }
{
    if counts.len() == 128 {
        counts.copy_from_slice(&table);
    }
}
