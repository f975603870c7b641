//! Rows on ranges of results and on what branches leave.

ghost use Rattle.std.specs.Prelude.{◌≡◌, ◌^◌, ◌-◌, None, Some, true, false, pos, negsuc};
ghost use Rattle.model.specs.Acceptance.Ranges.{full, single};
ghost use Rattle.model.specs.Acceptance.RangeRules.{range};
ghost use Rattle.model.specs.Acceptance.Measures.{register_numbered};
ghost use Rattle.model.specs.declared.instructions.BranchOp.TheVariants.{Beq, Bne, Blt, Bge, Bltu, Bgeu};
ghost use Rattle.model.specs.declared.instructions.ImmediateOp.TheVariants.{Addi, Andi, Ori, Sltiu, Xori};
ghost use Rattle.model.specs.declared.instructions.Instr.TheVariants.{Jal, Load, Registers, Upper};
ghost use Rattle.model.specs.declared.instructions.LoadOp.TheVariants.{Lbu, Lhu, Lw};
ghost use Rattle.model.specs.declared.instructions.RegisterOp.TheVariants.{Add, And, Or, Sll, Slt, Sltu, Sra, Srl, Sub, Xor};
ghost use Rattle.model.specs.declared.instructions.ShiftOp.TheVariants.{Slli, Srai, Srli};
ghost use Rattle.model.specs.declared.instructions.UpperOp.TheVariants.{Auipc, Lui};
ghost use Rattle.model_laws.specs.Ranged.{branched, branched_alone, by_immediate, by_registers, by_shift, result_of};

/// Sums and differences.
#[tactic(auto, unfolding(crate::proofs::Opened::opened))]
pub fn sums_lie_in()
    ensures sum { by_registers Add (range 3 10) (range 100 200) ≡ range 103 210 }
    ensures large_sum { by_registers Add (range 3 10) (range 0 (2 ^ 32 - 10)) ≡ full }
    ensures difference { by_registers Sub (range 100 200) (range 3 10) ≡ range 90 197 }
    ensures wrapping_difference { by_registers Sub (range 3 10) (range 3 10) ≡ full }
    ensures lowered { by_immediate Addi (range 1 10) (negsuc 0) ≡ range 0 9 }
    ensures wrapping { by_immediate Addi (range 0 10) (negsuc 0) ≡ full }
    ensures wrapping_sum { by_registers Add (single (2 ^ 32 - 1)) (single 2) ≡ single 1 }
    ensures zero { result_of (Registers Add (register_numbered 7) (register_numbered 0) (register_numbered 0)) full full ≡ single 0 }
    ensures wrapping_value { by_immediate Addi (single 0) (negsuc 0) ≡ single (2 ^ 32 - 1) }
{}

/// Bits and shifts.
#[tactic(auto, unfolding(crate::proofs::Opened::opened))]
pub fn bits_lie_in()
    ensures both { by_registers And (range 3 12) (range 5 9) ≡ range 0 9 }
    ensures either { by_registers Or (range 3 12) (range 5 9) ≡ range 5 15 }
    ensures one { by_registers Xor (range 3 16) (range 5 9) ≡ range 0 31 }
    ensures with_sixteen { by_immediate Ori (range 3 12) (pos 16) ≡ range 16 31 }
    ensures inverted { by_immediate Xori (range 3 12) (negsuc 0) ≡ full }
    ensures masked { by_immediate Andi (range 3 1000) (pos 15) ≡ range 0 15 }
    ensures left { by_shift Slli (range 3 5) 4 ≡ range 48 80 }
    ensures too_far_left { by_shift Slli (range 1 (2 ^ 31)) 1 ≡ full }
    ensures left_by_low_bits { by_registers Sll (range 3 5) (single 33) ≡ range 6 10 }
    ensures left_by_some { by_registers Sll (range 3 5) (range 1 2) ≡ full }
    ensures right { by_shift Srli (range 16 255) 4 ≡ range 1 15 }
    ensures right_by_some { by_registers Srl (range 16 255) (range 1 2) ≡ range 0 255 }
    ensures signed_right { by_shift Srai (range 16 255) 4 ≡ range 1 15 }
    ensures signed_right_of_all { by_shift Srai (range 0 (2 ^ 31)) 4 ≡ full }
{}

/// Comparisons, loads and constants.
#[tactic(auto, unfolding(crate::proofs::Opened::opened))]
pub fn others_lie_in()
    ensures less { by_registers Slt (range 3 5) (range 7 9) ≡ range 0 1 }
    ensures less_value { by_registers Sltu (single 3) (single 5) ≡ single 1 }
    ensures less_immediate { by_immediate Sltiu (single 3) (negsuc 0) ≡ single 1 }
    ensures byte { result_of (Load Lbu (register_numbered 7) (register_numbered 5) (pos 0)) full full ≡ range 0 255 }
    ensures halfword { result_of (Load Lhu (register_numbered 7) (register_numbered 5) (pos 0)) full full ≡ range 0 65535 }
    ensures word { result_of (Load Lw (register_numbered 7) (register_numbered 5) (pos 0)) (single 0) (single 0) ≡ full }
    ensures upper { result_of (Upper Lui (register_numbered 7) 5) full full ≡ single 0x5000 }
    ensures near { result_of (Upper Auipc (register_numbered 7) 5) full full ≡ single 0x6000 }
    ensures link { result_of (Jal (register_numbered 7) (pos 8)) full full ≡ single 0x1004 }
{}

/// What a branch leaves possible on either side.
#[tactic(auto, unfolding(crate::proofs::Opened::opened))]
pub fn branches_narrow()
    ensures less { branched Bltu true (range 0 10) (single 5) ≡ Some (range 0 4, single 5) }
    ensures not_less { branched Bltu false (range 0 10) (single 5) ≡ Some (range 5 10, single 5) }
    ensures not_below_zero { branched Bltu true (range 0 10) (single 0) ≡ None }
    ensures at_least { branched Bgeu true (range 0 10) (range 5 20) ≡ Some (range 5 10, range 5 10) }
    ensures equal { branched Beq true (range 0 10) (range 5 20) ≡ Some (range 5 10, range 5 10) }
    ensures never_equal { branched Beq true (range 0 4) (range 5 20) ≡ None }
    ensures unequal { branched Bne true (range 0 9) (single 0) ≡ Some (range 1 9, single 0) }
    ensures inside { branched Bne true (range 0 9) (single 5) ≡ Some (range 0 9, single 5) }
    ensures never_unequal { branched Bne true (single 5) (single 5) ≡ None }
    ensures signed { branched Blt true (range 0 10) (single 5) ≡ Some (range 0 4, single 5) }
    ensures negative { branched Bge true (range (2 ^ 31) (2 ^ 32 - 1)) (single (2 ^ 32 - 2)) ≡ Some (range (2 ^ 32 - 2) (2 ^ 32 - 1), single (2 ^ 32 - 2)) }
    ensures mixed { branched Blt true (range 0 (2 ^ 31)) (single 5) ≡ Some (range 0 (2 ^ 31), single 5) }
    ensures alone { branched_alone Bgeu true (range 0 10) ≡ Some (range 0 10, range 0 10) }
    ensures unequal_alone { branched_alone Bne true (single 3) ≡ None }
{}
