//! The search by halves.
ghost use Rattle.occ_pages.specs.Pages.{Rises, IsRank};

// How many of some keys in ascending order lie below a key.
pub(crate) fn rank(keys: &[u64], key: u64) -> usize
    requires { Rises keys.now }
    ensures { IsRank keys.now key result }
{
    let mut base = 0;
    let mut size = keys.len();
    while size > 1 {
        let half = size / 2;
        if keys[base + half - 1] < key {
            base += half;
        }
        size -= half;
    }
    if size == 1 && keys[base] < key {
        base + 1
    } else {
        base
    }
}
