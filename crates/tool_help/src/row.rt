//! A row of a tool's screen.

/// An option of a tool, as its screen shows it.
#[derive(Clone, Copy)]
pub struct OptionRow {
    /// Its name, without dashes.
    pub name: &'static str,
    /// What stands for its value, if it takes one.
    pub value: Option<&'static str>,
    /// What it does.
    pub text: &'static str,
}
