//! Writing a certificate into a file.

ghost use Rattle.std.specs.Prelude.{◌≡◌, ◌≤◌, ◌++◌, ◌∷◌, [], All, OnOk, decimal, flat_map, length};
ghost use Rattle.arrayvec.specs.ArrayVec.{array_vec_len};
ghost use Rattle.box_core.specs.Ranges.{ClaimFits, LineFits, StepsFit};
ghost use Rattle.box_cert.specs.Claims.{HasNumbers, claim_text};
ghost use Rattle.box_cert.specs.LineTexts.{as_line, line_text, lines_text, numbers_text};
ghost use Rattle.box_cert.specs.Spelling.{cert_text, content, front_text};
ghost use Rattle.box_cert.specs.Writing.{Goes, IsHeld, Writes};

use crate::line::{put_line, put_recipe};
use crate::number::{put_bytes, put_number};
use arrayvec::ArrayVec;
use box_core::{Cert, CertLine, Claim};
use price_grid::Steps;
use shelf_io::{Failed, Shelf};

/// Where more bytes than this wait, they are appended to the file before a piece is added.
const FULL: usize = 3968;

/// Appends the waiting bytes to the file.
fn flush<H: Shelf>(
    shelf: &mut H,
    name: &str,
    waiting: &mut ArrayVec<u8, 4096>,
) -> Result<(), Failed>
    requires { IsHeld name.now (H.view shelf.old) }
    ensures goes { Goes name.now [] result
        waiting.old.items (H.view shelf.old) [] (H.view shelf.new) }
    ensures held { OnOk result (IsHeld name.now (H.view shelf.new)) }
    ensures empty { OnOk result (waiting.new.items ≡ []) }
{
    let Ok(()) = shelf.append(name, waiting.as_slice()) else {
        return Err(Failed);
    };
    waiting.clear();
    Ok(())
}

/// Appends the waiting bytes to the file, and then no bytes, at which a shelf of real files stores
/// all that was written.
fn finish<H: Shelf>(
    shelf: &mut H,
    name: &str,
    waiting: &mut ArrayVec<u8, 4096>,
) -> Result<(), Failed>
    requires { IsHeld name.now (H.view shelf.old) }
    ensures { Goes name.now [] result
        waiting.old.items (H.view shelf.old) [] (H.view shelf.new) }
{
    let Ok(()) = flush(shelf, name, waiting) else {
        return Err(Failed);
    };
    flush(shelf, name, waiting)
}

/// Appends the waiting bytes to the file where there are more than `FULL`.
fn make_room<H: Shelf>(
    shelf: &mut H,
    name: &str,
    waiting: &mut ArrayVec<u8, 4096>,
) -> Result<(), Failed>
    requires { IsHeld name.now (H.view shelf.old) }
    ensures goes { Goes name.now [] result
        waiting.old.items (H.view shelf.old) waiting.new.items (H.view shelf.new) }
    ensures held { OnOk result (IsHeld name.now (H.view shelf.new)) }
    ensures room { OnOk result (array_vec_len waiting.new ≤ 3968) }
{
    if waiting.len() > FULL {
        return flush(shelf, name, waiting);
    }
    Ok(())
}

/// Adds a piece to the waiting bytes, once there is room for it.
fn put<H: Shelf>(
    shelf: &mut H,
    name: &str,
    waiting: &mut ArrayVec<u8, 4096>,
    piece: &[u8],
) -> Result<(), Failed>
    requires held { IsHeld name.now (H.view shelf.old) }
    requires short { length piece.now ≤ 128 }
    ensures goes { Goes name.now piece.now result
        waiting.old.items (H.view shelf.old) waiting.new.items (H.view shelf.new) }
    ensures held { OnOk result (IsHeld name.now (H.view shelf.new)) }
{
    let Ok(()) = make_room(shelf, name, waiting) else {
        return Err(Failed);
    };
    put_bytes(piece, waiting);
    Ok(())
}

/// The text of a line of the tree, with its line feed.
fn ended_line(line: &CertLine) -> ArrayVec<u8, 80>
    requires { LineFits line.now }
    ensures { result.items ≡ as_line (line_text line.now) }
{
    let mut text = ArrayVec::new();
    put_line(line, &mut text);
    text.push(b'\n');
    text
}

/// The text of a recipe, with its line feed.
fn ended_recipe(steps: &Steps) -> ArrayVec<u8, 80>
    requires some { 1 ≤ length steps.now.items }
    requires fits { StepsFit steps.now.items }
    ensures { result.items ≡ as_line (numbers_text steps.now.items) }
{
    let mut text = ArrayVec::new();
    put_recipe(steps, &mut text);
    text.push(b'\n');
    text
}

/// Adds the lines of the tree to the waiting bytes, piece by piece.
fn put_lines<H: Shelf>(
    shelf: &mut H,
    name: &str,
    waiting: &mut ArrayVec<u8, 4096>,
    lines: &[CertLine],
) -> Result<(), Failed>
    requires held { IsHeld name.now (H.view shelf.old) }
    requires fit { All LineFits lines.now }
    ensures goes { Goes name.now (lines_text lines.now) result
        waiting.old.items (H.view shelf.old) waiting.new.items (H.view shelf.new) }
    ensures held { OnOk result (IsHeld name.now (H.view shelf.new)) }
{
    for line in lines {
        let Ok(()) = put(shelf, name, waiting, ended_line(line).as_slice()) else {
            return Err(Failed);
        };
    }
    Ok(())
}

/// Adds the listed recipes to the waiting bytes, piece by piece.
fn put_recipes<H: Shelf>(
    shelf: &mut H,
    name: &str,
    waiting: &mut ArrayVec<u8, 4096>,
    recipes: &[Steps],
) -> Result<(), Failed>
    requires held { IsHeld name.now (H.view shelf.old) }
    requires some { All (λ s. 1 ≤ length s.items) recipes.now }
    requires fit { All (λ s. StepsFit s.items) recipes.now }
    ensures goes { Goes name.now (flat_map (λ s. as_line (numbers_text s.items)) recipes.now) result
        waiting.old.items (H.view shelf.old) waiting.new.items (H.view shelf.new) }
    ensures held { OnOk result (IsHeld name.now (H.view shelf.new)) }
{
    for steps in recipes {
        let Ok(()) = put(shelf, name, waiting, ended_recipe(steps).as_slice()) else {
            return Err(Failed);
        };
    }
    Ok(())
}

/// Adds the line of a claim, with its line feed.
#[tactic(auto, unfolding(crate::specs::Claims::claim_text))]
fn put_claim(claim: &Claim, into: &mut ArrayVec<u8, 80>)
    requires fits { ClaimFits claim.now }
    requires some { HasNumbers claim.now }
    requires room { array_vec_len into.old ≡ 0 }
    ensures text { into.new.items ≡ into.old.items ++ as_line (claim_text claim.now) }
{
    match claim {
        Claim::Match(steps) => {
            put_bytes(b"match ", into);
            put_recipe(steps, into);
        }
        Claim::NoMatch => put_bytes(b"none", into),
        Claim::Floor(cost) => {
            put_bytes(b"floor ", into);
            put_number(*cost, into);
        }
    }
    into.push(b'\n');
}

/// The text of the first two lines.
#[tactic(auto, unfolding(crate::specs::Spelling::front_text))]
fn front(claim: &Claim) -> ArrayVec<u8, 128>
    requires fits { ClaimFits claim.now }
    requires some { HasNumbers claim.now }
    ensures { result.items ≡ front_text claim.now }
{
    let mut line = ArrayVec::new();
    put_claim(claim, &mut line);
    let mut text = ArrayVec::new();
    put_bytes(b"dye-cert 1\n", &mut text);
    put_bytes(line.as_slice(), &mut text);
    text
}

/// The line before a list, with its line feed: a word and the number of recipes.
fn ended_count(word: &[u8], count: usize) -> ArrayVec<u8, 80>
    requires short { length word.now ≤ 16 }
    requires few { count ≤ 1000000 }
    ensures { result.items ≡ as_line (word.now ++ (32 ∷ decimal count)) }
{
    let mut text = ArrayVec::new();
    put_bytes(word, &mut text);
    text.push(b' ');
    put_number(count as u64, &mut text);
    text.push(b'\n');
    text
}

/// Adds a list to the waiting bytes, after the line with its word.
fn put_list<H: Shelf>(
    shelf: &mut H,
    name: &str,
    waiting: &mut ArrayVec<u8, 4096>,
    word: &[u8],
    recipes: &[Steps],
) -> Result<(), Failed>
    requires held { IsHeld name.now (H.view shelf.old) }
    requires short { length word.now ≤ 16 }
    requires few { length recipes.now ≤ 1000000 }
    requires some { All (λ s. 1 ≤ length s.items) recipes.now }
    requires fit { All (λ s. StepsFit s.items) recipes.now }
    ensures goes { Goes name.now (as_line (word.now ++ (32 ∷ decimal (length recipes.now)))
        ++ flat_map (λ s. as_line (numbers_text s.items)) recipes.now) result
        waiting.old.items (H.view shelf.old) waiting.new.items (H.view shelf.new) }
    ensures held { OnOk result (IsHeld name.now (H.view shelf.new)) }
{
    let line = ended_count(word, recipes.len());
    let Ok(()) = put(shelf, name, waiting, line.as_slice()) else {
        return Err(Failed);
    };
    put_recipes(shelf, name, waiting, recipes)
}

/// Appends the waiting bytes and the lines of the tree to the file.
fn put_tree<H: Shelf>(
    shelf: &mut H,
    name: &str,
    waiting: &mut ArrayVec<u8, 4096>,
    lines: &[CertLine],
) -> Result<(), Failed>
    requires held { IsHeld name.now (H.view shelf.old) }
    requires fit { All LineFits lines.now }
    ensures { Goes name.now (lines_text lines.now) result
        waiting.old.items (H.view shelf.old) [] (H.view shelf.new) }
{
    let Ok(()) = put_lines(shelf, name, waiting, lines) else {
        return Err(Failed);
    };
    finish(shelf, name, waiting)
}

/// Appends the whole certificate to the file, so that no byte is left waiting.
fn put_cert<H: Shelf>(cert: &Cert, shelf: &mut H, name: &str) -> Result<(), Failed>
    requires { IsHeld name.now (H.view shelf.old) }
    ensures { Goes name.now (cert_text (content cert.now)) result
        [] (H.view shelf.old) [] (H.view shelf.new) }
{
    let front = front(&cert.claim);
    let recipes = cert.undecided.as_slice();
    let mut waiting = ArrayVec::new();
    let Ok(()) = put(shelf, name, &mut waiting, front.as_slice()) else {
        return Err(Failed);
    };
    let Ok(()) = put_list(shelf, name, &mut waiting, b"undecided", recipes) else {
        return Err(Failed);
    };
    put_tree(shelf, name, &mut waiting, cert.lines.as_slice())
}

/// Writes the text of the certificate to the file of this name. It appends at most 4,096 bytes at a
/// time, and no bytes at last, so that the shelf can store the file; it allocates no memory. After a
/// failure, `Failed`, the file is as before or holds a prefix of the text.
pub fn write_cert<H: Shelf>(cert: &Cert, shelf: &mut H, name: &str) -> Result<(), Failed>
    requires some { 1 ≤ length name.now }
    requires short { length name.now ≤ 255 }
    ensures { Writes name.now (cert_text (content cert.now)) result
        (H.view shelf.old) (H.view shelf.new) }
{
    let Ok(()) = shelf.create(name) else {
        return Err(Failed);
    };
    put_cert(cert, shelf, name)
}
