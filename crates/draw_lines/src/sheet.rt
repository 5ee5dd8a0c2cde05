//! How a picture is laid out: by how many cores act, and how many columns there are.
ghost use Rattle.std.specs.Prelude.{◌≡◌, ◌≤◌};
ghost use Rattle.draw_lines.specs.Sheet.{across, column, down, form_of, lane, lanes_of, pitch, row_y, rows_y, sheet_of, wide};
ghost use Rattle.vm_base.specs.Cores.{members};

use crate::cores::count_members;
use vm_base::{CoreId, CoreSet};

/// How the words of a call stand in its bar.
#[derive(Clone, Copy)]
pub enum Layout {
    /// In lines below each other.
    Wide,
    /// In upright lines beside each other.
    Narrow,
    /// In one line, which may be longer than the bar.
    Flat,
}

/// What a picture is of, and how it is laid out.
#[derive(Clone, Copy)]
pub struct Sheet {
    /// The cores that have a lane.
    pub cores: CoreSet,
    /// The number of the first column.
    pub first: u64,
    /// How many columns there are.
    pub columns: u16,
    /// How words stand.
    pub form: Layout,
}

/// How many cores have a lane.
pub fn lanes_of(cores: CoreSet) -> u64
    ensures value { result ≡ lanes_of cores }
    ensures few { result ≤ 64 }
{
    count_members(cores, 64)
}

// How words stand: in one line where more than eight cores have a lane, upright where there are more than twelve columns.
fn form_of(lanes: u64, columns: u16) -> Layout
    ensures { result ≡ form_of lanes columns }
{
    if lanes > 8 {
        Layout::Flat
    } else if columns > 12 {
        Layout::Narrow
    } else {
        Layout::Wide
    }
}

/// How wide so many columns are: 12, or 40, have 1,440.
pub fn across(sheet: &Sheet, count: u64) -> u64
    requires { count ≤ 65535 }
    ensures value { result ≡ across sheet.now count }
    ensures bounded { result ≤ 8000000 }
{
    if sheet.columns <= 12 {
        return 120 * count;
    }
    match sheet.form {
        Layout::Flat if sheet.columns > 40 => 16 * count,
        _ => 36 * count,
    }
}

/// How wide a column is.
pub fn wide(sheet: &Sheet) -> u64
    ensures value { result ≡ wide sheet.now }
    ensures bounded { result ≤ 120 }
{
    if sheet.columns <= 12 {
        return 120;
    }
    match sheet.form {
        Layout::Flat if sheet.columns > 40 => 16,
        _ => 36,
    }
}

/// How high so many lanes are.
pub fn down(sheet: &Sheet, count: u64) -> u64
    requires { count ≤ 64 }
    ensures value { result ≡ down sheet.now count }
    ensures bounded { result ≤ 8192 }
{
    match sheet.form {
        Layout::Wide => 62 * count,
        Layout::Narrow => 128 * count,
        Layout::Flat => 15 * count,
    }
}

/// How high a lane is.
pub fn pitch(sheet: &Sheet) -> u64
    ensures value { result ≡ pitch sheet.now }
    ensures bounded { result ≤ 128 }
{
    match sheet.form {
        Layout::Wide => 62,
        Layout::Narrow => 128,
        Layout::Flat => 15,
    }
}

/// The sheet of so many columns from the first one on, with a lane for each of these cores.
pub fn sheet_of(cores: CoreSet, first: u64, columns: u16) -> Sheet
    ensures { result ≡ sheet_of cores first columns }
{
    Sheet {
        cores,
        first,
        columns,
        form: form_of(lanes_of(cores), columns),
    }
}

/// Where the column begins, from the left: behind the names, and the columns before it. Columns before the first have its
/// place, and columns after the last one begin where that ends.
pub fn column(sheet: &Sheet, number: u64) -> u64
    ensures value { result ≡ column sheet.now number }
    ensures bounded { result ≤ 9000000 }
{
    let at = number
        .saturating_sub(sheet.first)
        .min(u64::from(sheet.columns));
    150 + across(sheet, at)
}

/// Where the core's lane begins, from above.
pub fn lane(sheet: &Sheet, core: CoreId) -> u64
    ensures value { result ≡ lane sheet.now core }
    ensures bounded { result ≤ 9000 }
{
    let above = count_members(sheet.cores, core.index());
    40 + down(sheet, above)
}

/// Where the rows of pages begin, from above.
pub fn rows_y(sheet: &Sheet) -> u64
    ensures value { result ≡ rows_y sheet.now }
    ensures bounded { result ≤ 9000 }
{
    let lanes = lanes_of(sheet.cores);
    76 + down(sheet, lanes)
}

/// Where this row begins, from above.
pub fn row_y(sheet: &Sheet, row: u16) -> u64
    ensures value { result ≡ row_y sheet.now row }
    ensures bounded { result ≤ 2000000 }
{
    rows_y(sheet) + 20 * u64::from(row)
}
