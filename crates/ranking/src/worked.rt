// A worked table of four members and four slots, on which every definition is computed.
ghost use Rattle.std.specs.Prelude.{◌≡◌, length};
ghost use Rattle.tables.specs.Crews.{crews};
ghost use Rattle.ranking.specs.Worked.{worked_table, WorkedTable};

/// How many crews the worked table has. The contract says besides which they are, how a walk and the finder come by them, and how they rank by seats.
pub fn crews_of_the_worked_table() -> u8
    ensures count { result ≡ length (crews worked_table) }
    ensures worked { WorkedTable }
{
    5
}
