//! What an application expects of a line's answer.
ghost use Rattle.std.specs.Prelude.{◌≡◌, option_copied};
ghost use Rattle.osal_script.specs.Expected as expected;
ghost use Rattle.osal_script.specs.Expected.{expected_of};

use crate::{App, Item};
use osal_line::Expect;

impl App {
    /// The expectation of the call line of that number, if it has one. It looks through all lines.
    pub fn expectation(&self, line: u32) -> Option<&Expect>
        ensures { option_copied result ≡ expected_of self.now line }
    {
        for number in 0..self.bodies() {
            if let Some(expect) = expected_in(self.body(number).items(), line) {
                return Some(expect);
            }
        }
        None
    }
}

/// The expectation of the call line of that number among some items.
fn expected_in(items: &[Item], number: u32) -> Option<&Expect>
    ensures { option_copied result ≡ expected.expected_in number items.now }
{
    for item in items {
        if let Item::Call(line) = item {
            if line.number == number && line.expect.is_some() {
                return line.expect.as_ref();
            }
        }
    }
    None
}
