// Laws of what addresses wear, and the value of the constant.
ghost use Rattle.std.specs.Prelude.{◌≡◌, ◌++◌, ◌∷◌, [], ℕ, List, true, false, if◌then◌else◌};
ghost use Rattle.std.specs.Str.{bytes_eq};
ghost use Rattle.px_tag_board.specs.declared.answers.TheConstants.{ENTRY_LIMIT};
ghost use Rattle.px_tag_board.specs.Tags.{Tags, tags_after, are_distinct_tags, is_worn};
ghost use Rattle.px_tag_board.specs.States.{BoardState, worn_by};
ghost use Rattle.px_tag_board.specs.declared.changes.TagChange.TheVariants.{Wear, Shed};
ghost use Rattle.px_tag_board.specs.declared.entries.BoardEntry.{BoardEntry};

/// At first nobody wears a tag. An entry alters the tags of its address by its change, and those of no other address. No
/// address wears a tag twice.
pub fn tags_are_a_map()
    ensures first { (address : List ℕ) → worn_by address [] ≡ [] }
    ensures later { (address : List ℕ) (state : BoardState) (entry : BoardEntry) → worn_by address (state ++ entry ∷ [])
        ≡ (if bytes_eq entry.address address then tags_after (worn_by address state) entry.change else worn_by address state) }
    ensures once { (address : List ℕ) (state : BoardState) → are_distinct_tags (worn_by address state) ≡ true }
{}

/// A change that alters nothing finds its tag worn, or not worn.
pub fn settled_changes()
    ensures worn { (tags : Tags) (tag : List ℕ) → tags_after tags (Wear tag) ≡ tags → is_worn tags tag ≡ true }
    ensures shed { (tags : Tags) (tag : List ℕ) → tags_after tags (Shed tag) ≡ tags → is_worn tags tag ≡ false }
{}

/// The most changes that a board holds.
pub fn constants()
    ensures { ENTRY_LIMIT ≡ 10000 }
{}
