//! The parts of a path.
ghost use Rattle.std.specs.Prelude.{◌≡◌, ◌+◌, ◌≤◌, [], ◌∷◌, length, MatchOption, IfSome, true, false};
ghost use Rattle.std.specs.Option.{option_map_or};
ghost use Rattle.std.specs.List.{position};
ghost use Rattle.osal_path.specs.Path.{parts, is_rooted, last_part, is_bad_part, is_slash};

use osal_base::Name;

pub(crate) const SLASH: u8 = b'/';

/// The bytes before the first slash, and those after it where there is one.
pub(crate) fn cut(path: &[u8]) -> (&[u8], Option<&[u8]>)
    ensures parts { parts path.now ≡ result.0.now ∷ option_map_or (λ rest. parts rest.now) result.1 [] }
    ensures shorter { IfSome result.1 (λ rest. length result.0.now + 1 + length rest.now ≡ length path.now) }
    ensures within { length result.0.now ≤ length path.now }
{
    match first_slash(path) {
        Some(at) => (&path[..at], Some(&path[at + 1..])),
        None => (path, None),
    }
}

fn first_slash(path: &[u8]) -> Option<usize>
    ensures { result ≡ position is_slash path.now }
{
    path.iter().position(|b| *b == SLASH)
}

/// The bytes after a leading slash.
pub(crate) fn below_root(path: &[u8]) -> Option<&[u8]>
    ensures { MatchOption result (is_rooted path.now ≡ false) (λ rest. path.now ≡ 47 ∷ rest.now) }
{
    match path {
        [SLASH, rest @ ..] => Some(rest),
        _ => None,
    }
}

/// The bytes after the last slash.
pub(crate) fn last_part(path: &[u8]) -> &[u8]
    ensures { result.now ≡ last_part path.now }
{
    let (mut last, mut rest) = cut(path);
    while let Some(text) = rest {
        let (part, after) = cut(text);
        last = part;
        rest = after;
    }
    last
}

/// The name that a part of a path is, where it may be one.
pub(crate) fn name_of(part: &[u8]) -> Option<Name>
    ensures { MatchOption result
        (is_bad_part part.now ≡ true)
        (λ name. (name ≡ part.now) × (is_bad_part part.now ≡ false)) }
{
    if part == b".".as_slice() || part == b"..".as_slice() {
        return None;
    }
    Name::new(part).ok()
}
