//! A picture of what a policy keeps.
ghost use Rattle.std.specs.Prelude.{◌≡◌};

use policies::retention::Retention;
use reports::stretch::Stretch;
use std::fmt;
use values::moment::Moment;

// The most columns in which all moments are drawn, and those of one row of ages.
const TIMELINE_COLUMNS: u32 = 64;

const ROW_COLUMNS: u32 = 32;

const TABLE_HEAD: &str =
    "      aged               are kept         # kept  + some kept  . given up\n";

// Ages up to the last moment stand in rows 0 to 20.
const ROWS: u32 = 21;

/// Draws what a policy keeps at a moment: first all moments on one line, then a row for each
/// doubling of their age. No line is longer than 80 columns.
#[derive(Clone, Copy)]
pub struct Picture {
    retention: Retention,
    present: Moment,
}

impl Picture {
    /// The picture of what the policy keeps at `present`.
    pub fn new(retention: Retention, present: Moment) -> Picture
        ensures retention { result.retention ≡ retention }
        ensures present { result.present.value ≡ present.value }
    {
        Picture { retention, present }
    }

    fn write_summary<W: fmt::Write>(&self, f: &mut fmt::Formatter<W>) -> fmt::Result {
        let all = Stretch::up_to(self.present);
        let moments = all.moments();
        let kept = all.kept(&self.retention, self.present);
        let given_up = all.given_up(&self.retention, self.present);
        let present = self.present.number();
        let retention = self.retention;
        writeln!(
            f,
            "keep={retention} at now {present}: {kept} of {moments} moments kept, {given_up} given up"
        )
    }

    // A mark for each column of a stretch.
    fn write_marks<W: fmt::Write>(
        &self,
        stretch: Stretch,
        columns: u32,
        f: &mut fmt::Formatter<W>,
    ) -> fmt::Result {
        for column in (0..columns).map_while(|index| stretch.column(index, columns)) {
            let mark = column.mark(&self.retention, self.present);
            write!(f, "{mark}")?;
        }
        Ok(())
    }

    fn write_timeline<W: fmt::Write>(&self, f: &mut fmt::Formatter<W>) -> fmt::Result {
        let all = Stretch::up_to(self.present);
        write!(f, "  0 ")?;
        self.write_marks(all, TIMELINE_COLUMNS, f)?;
        let present = self.present.number();
        writeln!(f, " {present}")?;
        let width = all.column_width(TIMELINE_COLUMNS);
        if width > 1 {
            writeln!(f, "    (a mark for every {width} moments)")?;
        }
        Ok(())
    }

    // A row of the table of ages.
    fn write_row<W: fmt::Write>(&self, stretch: Stretch, f: &mut fmt::Formatter<W>) -> fmt::Result {
        let youngest = stretch.youngest(self.present);
        let oldest = stretch.oldest(self.present);
        let kept = stretch.kept(&self.retention, self.present);
        let moments = stretch.moments();
        if youngest == oldest {
            write!(f, "  {youngest:>7}           ")?;
        } else {
            write!(f, "  {youngest:>7} to {oldest:>7}")?;
        }
        write!(f, " {kept:>8} of {moments:>7}  ")?;
        self.write_marks(stretch, ROW_COLUMNS, f)?;
        writeln!(f, "")
    }
}

impl fmt::Display for Picture {
    fn fmt<W: fmt::Write>(&self, f: &mut fmt::Formatter<W>) -> fmt::Result {
        self.write_summary(f)?;
        self.write_timeline(f)?;
        f.write_str(TABLE_HEAD)?;
        for stretch in (0..ROWS).map_while(|row| Stretch::ages(row, self.present)) {
            self.write_row(stretch, f)?;
        }
        Ok(())
    }
}
