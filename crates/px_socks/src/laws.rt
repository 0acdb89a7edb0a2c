// What the definitions say of one another.
ghost use Rattle.std.specs.Prelude.{◌≡◌, ℕ, List, Some, None};
ghost use Rattle.px_socks.specs.Messages.{IsAccepted, NoneAhead, Took};
ghost use Rattle.px_socks.specs.Comings.{accepted_length};

/// No two numbers of bytes are accepted at the front of the same bytes: what a server sends settles where its link begins.
pub fn accepted_bytes_are_prefix_free()
    ensures { (left rest more : List ℕ) (m n : ℕ) → Took IsAccepted m left rest → Took IsAccepted n left more → m ≡ n }
{}

/// The bytes that are accepted at the front of others are counted, where there are such: the count is what is cut off.
pub fn accepted_bytes_are_counted()
    ensures some { (left rest : List ℕ) (count : ℕ) → Took IsAccepted count left rest → accepted_length left ≡ Some count }
    ensures none { (left : List ℕ) → NoneAhead IsAccepted left → accepted_length left ≡ None }
{}
