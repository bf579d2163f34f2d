//! Numbers of links, which rise.
ghost use Rattle.std.specs.Prelude.{◌≡◌, OnOk, nat_le};
ghost use Rattle.std.specs.List.{prefix_len};
ghost use Rattle.aprs_history.specs.Trace.{placed, placed_all};

use aprs_base::Memory;

/// Puts a number into its place among rising ones.
fn place(numbers: &mut Vec<u32>, number: u32) -> Result<(), Memory>
    ensures { OnOk result (numbers.new.items ≡ placed number numbers.old.items) }
{
    numbers.insert(place_for(numbers.as_slice(), number), number)?;
    Ok(())
}

/// How many numbers come before the first that is above this one.
fn place_for(numbers: &[u32], number: u32) -> usize
    ensures { result ≡ prefix_len (λ n. nat_le n number) numbers.now }
{
    numbers.iter().take_while(|other| **other <= number).count()
}

/// Puts several numbers into their places, one after another.
pub(crate) fn place_all(numbers: &mut Vec<u32>, more: &[u32]) -> Result<(), Memory>
    ensures { OnOk result (numbers.new.items ≡ placed_all more.now numbers.old.items) }
{
    for number in more {
        place(numbers, *number)?;
    }
    Ok(())
}
