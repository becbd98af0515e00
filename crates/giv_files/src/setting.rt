// One setting.
use crate::key::Key;

/// A key and its value: a fixed number in millionths, a word by its place, `all` as -1 and `none` as -2.
#[derive(Clone, Copy, Debug, PartialEq, Eq)]
pub struct Setting {
    pub key: Key,
    pub value: i64,
}
