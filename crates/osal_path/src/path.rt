//! Paths, cut at their slashes.
ghost use Rattle.std.specs.Prelude.{◌≡◌, ◌≤◌, length, IfOk};
ghost use Rattle.osal_path.specs.Path.{split_path, names_between};

use crate::Trail;
use crate::parts::{SLASH, below_root, cut, last_part, name_of};
use osal_base::Status;

/// The most bytes of a path (`OS_MAX_PATH_LEN` less its closing zero).
const PATH_LIMIT: usize = 63;

/// The most bytes of a name in a path (`OS_MAX_FILE_NAME` less its closing zero).
const NAME_LIMIT: usize = 19;

/// The names of a path, or the first reason why it has none.
///
/// Its time is linear in the bytes of the path, and it takes no memory.
pub fn split(path: &[u8]) -> Result<Trail, Status>
    ensures answer { result ≡ split_path path.now }
    ensures some { IfOk result (λ trail. 1 ≤ length trail) }
{
    if path.len() > PATH_LIMIT {
        return Err(Status::FsErrPathTooLong);
    }
    if !path.contains(&SLASH) {
        return Err(Status::FsErrPathInvalid);
    }
    if last_part(path).len() > NAME_LIMIT {
        return Err(Status::FsErrNameTooLong);
    }
    match below_root(path) {
        Some(rest) => names_in(rest),
        None => Err(Status::FsErrPathInvalid),
    }
}

// The names in the bytes after a leading slash.
fn names_in(path: &[u8]) -> Result<Trail, Status>
    requires { length path.now ≤ 62 }
    ensures answer { result ≡ names_between path.now }
    ensures some { IfOk result (λ trail. 1 ≤ length trail) }
{
    let mut trail = Trail::new();
    let mut rest = Some(path);
    while let Some(text) = rest {
        let (part, after) = cut(text);
        let Some(name) = name_of(part) else {
            return Err(Status::FsErrPathInvalid);
        };
        trail.push(name);
        rest = after;
    }
    Ok(trail)
}
