//! Texts of a job.

ghost use Rattle.std.specs.Prelude.{◌≡◌, ◌==◌, codes, string_bytes};
ghost use Rattle.std.specs.List.{ends_with};
ghost use Rattle.job_keys.specs.Texts.{is_file_text};

use std::marker::Model;

/// A text, which contracts see as its bytes.
#[derive(Debug, Default, Drop)]
pub struct Text {
    text: Option<String>,
}

impl Model for Text {
    ghost use Rattle.std.specs.Prelude.{ℕ, List};
    ghost use Rattle.job_keys.specs.Bytes.{bytes_of};

    ghost Value = { List ℕ };

    ghost view = { λ t. bytes_of t.text };
}

impl Text {
    /// The text of a string.
    pub fn of(text: String) -> Text
        ensures { result ≡ string_bytes text }
    {
        Text { text: Some(text) }
    }

    /// The text as a string slice.
    pub fn as_str(&self) -> &str
        ensures { result.now ≡ self.now }
    {
        match &self.text {
            Some(text) => text.as_str(),
            None => "",
        }
    }
}

fn ends_as_certificate(text: &[u8]) -> bool
    ensures { result ≡ ends_with ◌==◌ text.now (codes ".cert") }
{
    text.ends_with(b".cert")
}

/// Whether a text may name a file: 1 to 255 bytes that do not end with `.cert`.
pub fn is_file_text(text: &str) -> bool
    ensures { result ≡ is_file_text text.now }
{
    1 <= text.len() && text.len() <= 255 && !ends_as_certificate(text.as_bytes())
}
