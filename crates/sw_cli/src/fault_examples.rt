//! Worked examples: the lines that the definitions give for refusals that are written out.
//!
//! Each function here does nothing. Its contract is the example, and the check computes it.

ghost use Rattle.std.specs.Prelude.{◌≡◌, codes};
ghost use Rattle.sw_cli.specs.Faults.{fault_line};

use sw_rows::{Refusal, Why};

/// What a table, a script or the cuts are refused with.
pub fn faults_of_texts()
    ensures table { fault_line (Refusal.BadTable 2 3) ≡ codes "sideways: refused 2 record 2 field 3\n" }
    ensures line { fault_line (Refusal.BadLine 4 Why.Value) ≡ codes "sideways: refused 3 line 4 why Value\n" }
    ensures name { fault_line (Refusal.UnknownAttribute (codes "d")) ≡ codes "sideways: refused 4 name d\n" }
    ensures limit { fault_line (Refusal.TooMany 8) ≡ codes "sideways: refused 5 limit 8\n" }
{}

/// What a call over the engine's parts is refused with.
pub fn faults_of_calls()
    ensures memory { fault_line Refusal.NoMemory ≡ codes "sideways: refused 1\n" }
    ensures blank { fault_line (Refusal.NoBlank 1 2) ≡ codes "sideways: refused 6 boxes 1 needed 2\n" }
    ensures short { fault_line (Refusal.Short 128 64 128)
        ≡ codes "sideways: refused 7 used 128 want 64 capacity 128\n" }
    ensures contended { fault_line (Refusal.Contended 64 128) ≡ codes "sideways: refused 8 seen 64 found 128\n" }
    ensures shares { fault_line (Refusal.SharesOut 2 1) ≡ codes "sideways: refused 9 made 2 given 1\n" }
    ensures full { fault_line (Refusal.HistoryFull 1048576) ≡ codes "sideways: refused 10 entries 1048576\n" }
    ensures illegal { fault_line (Refusal.NotLegal 1) ≡ codes "sideways: refused 11 index 1\n" }
    ensures input { fault_line Refusal.Input ≡ codes "sideways: refused 12\n" }
    ensures output { fault_line Refusal.Output ≡ codes "sideways: refused 13\n" }
    ensures ahead { fault_line (Refusal.Ahead 5 4) ≡ codes "sideways: refused 14 seen 5 told 4\n" }
{}
