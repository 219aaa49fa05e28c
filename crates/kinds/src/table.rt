// The tables of limited size, by which a refusal says what is full.
ghost use Rattle.std.specs.Prelude.{◌≡◌};
ghost use Rattle.kinds.specs.Numbers.{number_of_table};

// A table of the builder.
#[derive(Clone, Copy, Debug, PartialEq, Eq)]
pub enum Table {
    Blocks,
    Edges,
    Instructions,
    // the contexts that are open
    Contexts,
    // the breaks and continues that wait for their context's targets
    Entries,
    Harnesses,
    Finalizers,
    // the breaks and continues given since the builder was made
    Given,
}

impl Table {
    // The table's number, from 1 on. O(1).
    pub fn number(self) -> u32
        ensures { result ≡ number_of_table self }
    {
        match self {
            Table::Blocks => 1,
            Table::Edges => 2,
            Table::Instructions => 3,
            Table::Contexts => 4,
            Table::Entries => 5,
            Table::Harnesses => 6,
            Table::Finalizers => 7,
            Table::Given => 8,
        }
    }
}
