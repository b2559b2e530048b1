//! Where an item of a list with commas stands.

/// Where the next item of a list with commas stands.
#[derive(Clone, Copy, Debug, PartialEq, Eq)]
pub enum ListContext {
    /// In a tuple or a list, with or without brackets.
    Items,
    /// In a list of targets.
    Targets,
    /// Between the brackets of a subscript.
    Subscript,
    /// In the header of a `with`.
    WithItems,
    /// First between curly brackets.
    Braces,
    /// In a set.
    Set,
    /// In a dictionary.
    Entries,
    /// In a call, where no keyword and no `**` came before.
    Arguments,
    /// In a call, after a keyword.
    KeywordArguments,
    /// In a call, after `**`.
    LastArguments,
    /// Among parameters, which are annotated or a lambda's, before any `*`.
    Parameters(bool),
    /// Directly after a parameter `*`.
    AfterStar(bool),
    /// Among the parameters that are given by keyword alone.
    KeywordOnly(bool),
    /// After a parameter `**name`.
    Ended,
}
