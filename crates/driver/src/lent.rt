// Words of a program's own, which it lends to the manager.
ghost use Rattle.std.specs.Prelude.{◌≡◌, ◌<◌, ◌^◌, IfOk, vec_len};

use script::MOST_WORDS;
use std::alloc::{AllocError, Global};

// What stands in the words before the manager has them: nothing is said of it.
const RUBBISH: u64 = 0xaaaa_aaaa_aaaa_aaaa;

// So many words. More than can have addresses are more than there is memory for.
pub fn lent_words(heap: Global, words: u64) -> Result<Vec<u64>, AllocError>
    ensures { IfOk result (λ v. (vec_len v ≡ words) × (words < 2 ^ 56)) }
{
    if words > MOST_WORDS {
        return Err(AllocError);
    }
    Ok(vec![in heap; RUBBISH; words as usize]?)
}
