ghost use Rattle.std.specs.Prelude.{◌≤◌, length};

/// A word that can name a file.
#[derive(Clone, Copy)]
pub struct FileName<'a> {
    pub text: &'a str,
    pub ghost some: { 1 ≤ length text.now },
    pub ghost short: { length text.now ≤ 255 },
}
