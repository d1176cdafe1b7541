ghost use Rattle.std.specs.Prelude.{◌≡◌, length};
ghost use Rattle.std.specs.Option.{option_map};
ghost use Rattle.ql_tree.specs.declared.word.Word.{Word};
ghost use Rattle.ql_parse.specs.CommaLists as lists;
ghost use Rattle.ql_parse.specs.Found.{Reader};
ghost use Rattle.ql_parse.specs.FrontWords.{beyond};
ghost use Rattle.ql_parse.specs.Gives.{Gives};

use crate::fault::ParseFault;
use crate::fronts::{Next, behind_item};
use op_base::List;
use ql_tree::Word;
use std::alloc::Global;

/// What a list with commas may hold.
pub(crate) trait Item: Drop {
    /// The word that closes such a list.
    ghost closing: { Word };

    /// The reading of an item.
    ghost reading: { Reader Self };

    /// The words behind the one that closes the list, where it is the first.
    fn close(words: &[Word]) -> Option<&[Word]>
        ensures { option_map (λ behind. behind.now) result ≡ beyond closing words.now };

    /// The item that stands in front, and the words behind it.
    fn read(alloc: Global, words: &[Word]) -> Result<(Self, &[Word]), ParseFault>
        ensures { Gives (λ x. (x.0, x.1.now)) result (reading words.now) };
}

/// Items with a comma between each two and perhaps one behind the last, and the word that closes
/// them.
pub(crate) fn comma_list<T: Item>(
    alloc: Global,
    words: &[Word],
) -> Result<(List<T>, &[Word]), ParseFault>
    ensures { Gives (λ x. (x.0, x.1.now)) result
        (lists.comma_list T.closing T.reading (length words.now) words.now) }
{
    let mut found = List::new(alloc);
    let mut behind = words;
    for step in 0..words.len() {
        match T::close(behind) {
            Some(end) => return Ok((found, end)),
            None => {}
        }
        match T::read(alloc, behind) {
            Ok((one, after)) => {
                found.push(one)?;
                match behind_item(T::close(after), after) {
                    Next::End(end) => return Ok((found, end)),
                    Next::More(next) => behind = next,
                    Next::Broken => return Err(ParseFault::NotExpr),
                }
            }
            Err(fault) => return Err(fault),
        }
    }
    Err(ParseFault::NotExpr)
}
