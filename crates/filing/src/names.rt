// Names: what a good one is, and whether an entry has a name.
ghost use Rattle.std.specs.Prelude.{◌≡◌, ◌≤◌, length};
ghost use Rattle.layout.specs.Bytes.{same};
ghost use Rattle.layout.specs.Filing.{entry_at, good_name};

use crate::entries::HEAD;
use layout::limits::{longest_name, slash};
use memory::bytes::number;
use memory::runs::matches;

// Whether a name is good: 1 to 64 bytes, none of them the slash.
pub fn good_name(name: &[u8]) -> bool
    ensures { result ≡ good_name name.now }
{
    !name.is_empty() && name.len() <= longest_name() && !name.contains(&slash())
}

// Whether the entry that `piece` starts with has that name, as far as it goes.
pub fn name_is(piece: &[u8], name: &[u8]) -> bool
    requires { length name.now ≤ 64 }
    ensures { result ≡ same (entry_at piece.now 0).name name.now }
{
    let m = number(&*piece, 4, 2).min(piece.len().saturating_sub(HEAD));
    m == name.len() && matches(&*piece, HEAD, &*name)
}
