// The call of a line: it is made as the line has it, and held against what the line says must come of it.
use try_support::line::Line;

// Whether the call comes to its number, and every entry of its tables and words. One whose tables have no room is not made.
pub fn agrees(l: &Line) -> bool {
    if !(l.coefs.fits() && l.stack.fits() && l.list.fits() && l.shares.fits() && l.record.fits()) {
        return false;
    }
    let mut stack = l.stack;
    let mut list = l.list;
    let mut round = l.record;
    let number = c_dispatch::dispatch(
        l.operands[0] as usize,
        l.operands[1],
        l.operands[2],
        l.shares.entries(),
        l.coefs.entries(),
        stack.lend(),
        list.lend(),
        round.lend(),
    );
    number == l.answered[0] && stack.agrees() && list.agrees() && round.agrees()
}
