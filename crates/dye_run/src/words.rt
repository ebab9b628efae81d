//! Words of a command line.

ghost use Rattle.std.specs.Prelude.{◌≡◌, ◌==◌, ◌≤◌, IfSome, codes, length, map, option_map, string_bytes, true};
ghost use Rattle.std.specs.List.{ends_with};
ghost use Rattle.dye_run.specs.Views.{lit_view};
ghost use Rattle.dye_run.specs.Words.{is_cert_word, is_file_word, is_job_word, lit_column_of, number_in};

use dec_text::read_whole;

/// Whether a word can name a file.
pub(crate) fn names_file(word: &str) -> bool
    ensures { result ≡ is_file_word word.now }
{
    1 <= word.len() && word.len() <= 255
}

fn ends_as_certificate(word: &[u8]) -> bool
    ensures { result ≡ ends_with ◌==◌ word.now (codes ".cert") }
{
    word.ends_with(b".cert")
}

/// Whether a word can name a job.
pub(crate) fn names_job(word: &str) -> bool
    ensures { result ≡ is_job_word word.now }
{
    names_file(word) && !ends_as_certificate(word.as_bytes())
}

/// Whether a word can name a certificate.
pub(crate) fn names_cert(word: &str) -> bool
    ensures is { result ≡ is_cert_word word.now }
    ensures short { result ≡ true → (1 ≤ length word.now) × (length word.now ≤ 255) }
{
    names_file(word) && ends_as_certificate(word.as_bytes())
}

/// The number that a word of one to nine digits spells, if it is in a range.
#[tactic(auto, unfolding(crate::specs::Words::number_in))]
pub(crate) fn number_in(low: u32, high: u32, word: &str) -> Option<u32>
    ensures is { result ≡ number_in low high word.now }
    ensures range { IfSome result (λ n. (low ≤ n) × (n ≤ high)) }
{
    match read_whole(word.as_bytes(), 9) {
        Some(value) if low <= value && value <= high => Some(value),
        _ => None,
    }
}

/// A column of a curve file, under the light of a weights file: CURVES COLUMN WEIGHTS.
#[derive(Clone, Copy)]
pub(crate) struct LitColumn<'a> {
    pub curves: &'a str,
    pub column: &'a str,
    pub weights: &'a str,
}

impl LitColumn<'_> {
    pub(crate) fn of_words(words: &[String]) -> Option<LitColumn<'_>>
        ensures { option_map lit_view result ≡ lit_column_of (map string_bytes words.now) }
    {
        match words {
            [curves, column, weights]
                if names_file(curves.as_str()) && names_file(weights.as_str()) => {
                Some(LitColumn {
                    curves: curves.as_str(),
                    column: column.as_str(),
                    weights: weights.as_str(),
                })
            }
            _ => None,
        }
    }
}
