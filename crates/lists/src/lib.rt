// Reading a place of a list, and storing into a part of one.
#![tactic(auto)]

ghost use Rattle.std.specs.Prelude.{◌≡◌, [], ◌∷◌, ◌+◌, ◌≤◌, pos, length, get_or};
ghost use Rattle.std.proofs.lemmas.List.Edits.{sets};

// A number of a list, 0 where it has ended.
// One chain of the library, under a contract in the words of the definitions.
pub fn number_at(list: &[i64], at: usize) -> i64
    ensures { result ≡ get_or list.now at (pos 0) }
{
    list.get(at).copied().unwrap_or(0)
}

// Stores three figures, one after another, from a place on.
pub fn write_three(list: &mut [i64], at: usize, first: i64, second: i64, third: i64)
    requires { at + 3 ≤ length list.old }
    ensures { list.new ≡ sets list.old at (first ∷ second ∷ third ∷ []) }
{
    // No plainer as one copy of a list of three: that was tried, and its proof takes an answer of eight lines where these stores take none.
    list[at] = first;
    list[at + 1] = second;
    list[at + 2] = third;
}
