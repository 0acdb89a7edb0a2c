// Lists of numbers in ascending order.
ghost use Rattle.std.specs.Prelude.{◌≡◌, ℕ, Bool, true};
ghost use Rattle.std.specs.List.{list_any};
ghost use Rattle.std.specs.List.Sorted.{IsStrictlyIncreasing};

/// Puts numbers into ascending order, each once.
pub fn put_in_order(numbers: &mut Vec<usize>)
    ensures rises { IsStrictlyIncreasing numbers.new.items }
    ensures keeps { (test : ℕ → Bool) → list_any test numbers.old.items ≡ true → list_any test numbers.new.items ≡ true }
    ensures adds_none { (test : ℕ → Bool) → list_any test numbers.new.items ≡ true → list_any test numbers.old.items ≡ true }
{
    numbers.sort_unstable();
    numbers.dedup();
}
