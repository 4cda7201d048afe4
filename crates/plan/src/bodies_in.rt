// The bodies of a subset as they are measured: how they are written, the kept glyphs of a font, and what the work words and the tables hold of them.
ghost use Rattle.record.specs.Record.{rows_of};
ghost use Rattle.plan.specs.Sizes.{MeasureIn};
ghost use Rattle.plan.specs.Alone.{measure_in_prop};

use bodies::Manner;
use order_window::Order;
use renumber::Ranks;

#[derive(Clone, Copy)]
pub struct BodiesIn<'a> {
    pub how: Manner,
    pub o: Order,
    pub font: &'a [u8],
    pub used: &'a [u32],
    pub words: &'a [u32],
    pub table: &'a [Ranks],
    pub rows: &'a [u8],
    ghost asked: { MeasureIn font.now o used.now words.now how table.now (rows_of rows.now) } by { measure_in_prop font.now o used.now words.now how table.now (rows_of rows.now) },
}
