/// The quantities that have a limit, each with what is counted and the greatest count allowed.
#[derive(Clone, Copy, Debug, PartialEq, Eq)]
pub enum Which {
    /// Bytes of a source file: 1,048,576.
    Source,
    /// Brackets open at a token: 100.
    Nesting,
    /// Open brackets and operators counted in all open levels at a token: 250.
    Depth,
    /// Words `else` since the last word `fn`: 250.
    Else,
    /// Functions of a file: 4,096.
    Functions,
    /// Variables of one function: 1,000.
    Variables,
    /// Nodes of one type: 1,000.
    TypeNodes,
    /// Lowered statements of one function: 2,000.
    Statements,
    /// Ends of paths in one function: 4,096.
    Paths,
    /// Loans, symbols or abstractions numbered on one path: 4,294,967,295.
    Ids,
    /// Bytes of a printed text: 67,108,864.
    Text,
    /// Brackets open at a token of a printed text: 10,000.
    TextNesting,
    /// The number FUEL of a command: 256.
    Fuel,
    /// The number SIZE of the command `work`: 1,000.
    Work,
}
