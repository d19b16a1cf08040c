//! What is reported of operands is what the definitions of runs read off them.
ghost use Rattle.sh_operands.specs.Meaning.{FieldsCount, NumbersRead, SetReads, SetStays, UnsetKeeps, UnsetReads};

/// What `unset_operands` and `positional_at` report of the static texts of operands is what `unset`
/// and `set` read of these (XCU 2.15). It is what `unset` removes, with its operands after the
/// options. It is also the positional words of `set`. Then every operand is static, or the operands
/// in front of those that are not say where these words begin. What `unset` does not take by its
/// letters no run removes.
pub fn options()
    ensures unset { UnsetReads }
    ensures kept { UnsetKeeps }
    ensures set { SetReads }
    ensures behind { SetStays }
{}

/// What `number_in` and `count_behind` report is exact below 4,294,967,295. It is the number that a
/// text writes, and how many fields words give at least, by their forms and the number of
/// positional parameters. They never report more fields.
pub fn counts()
    ensures number { NumbersRead }
    ensures fields { FieldsCount }
{}
