// One field of a line written (01, "Chart text"), from the numbers of its row.
ghost use Rattle.std.specs.Prelude.{◌≡◌, true, ◌∷◌, ◌+◌, ◌<◌};
ghost use Rattle.numbers.specs.Reference.{NOWHERE};
ghost use Rattle.meaning.specs.Split.{TAB as Tab};
ghost use Rattle.meaning.specs.Value.{fits_field};
ghost use Rattle.meaning.specs.Line.{write_field};
ghost use Rattle.forms.specs.Table.{field_of};
ghost use Rattle.pen.specs.Pen.{held, put_all};
ghost use Rattle.round_trip.specs.Rows.{tells};

use chart_rows::decode::{is_absent, is_letter, one_of_letters};
use chart_rows::number_at;
use forms::Field;
use meaning::bytes::TAB;
use numbers::reference;
use pen::Pen;

// Whether the first number of a row's rest tells that it has this field, and not one of another form.
pub fn tells(field: Field, z: i32) -> bool
    ensures { result ≡ tells (field_of field) z }
{
    match field {
        Field::Dash => is_absent(z),
        Field::InPlace => is_absent(z),
        Field::TargetHistory => is_letter(b'h', z),
        Field::Letter(letters) => one_of_letters(letters.bytes(), z),
        _ => false,
    }
}

// What a field says of record n, from the chart's numbers at a place on.
fn put_said(chart: &[i32], at: usize, field: Field, n: usize, pen: &mut Pen)
    requires { (fits_field (field_of field) at chart.now ≡ true) × (at + 1 < NOWHERE) }
    ensures same_reference { pen.new.out.ghost_name ≡ pen.old.out.ghost_name }
    ensures written { held pen.new ≡ put_all (write_field (field_of field) n at chart.now) (held pen.old) }
{
    match field {
        Field::Turn => pen.put_digits(n),
        Field::Number => pen.put_numeral(number_at(chart, at)),
        Field::EventCount => pen.put_numeral(number_at(chart, at)),
        Field::Dash => pen.put(b'-'),
        Field::Letter(_) => pen.put(reference(number_at(chart, at)) as u8),
        Field::TargetState => pen.put_numeral(number_at(chart, at + 1)),
        Field::TargetHistory => {
            pen.put(b'h');
            pen.put_numeral(number_at(chart, at + 1));
        }
        Field::InPlace => pen.put(b'-'),
    }
}

// A tab, and the field.
pub fn put_field(chart: &[i32], at: usize, field: Field, n: usize, pen: &mut Pen)
    requires { (fits_field (field_of field) at chart.now ≡ true) × (at + 1 < NOWHERE) }
    ensures same_reference { pen.new.out.ghost_name ≡ pen.old.out.ghost_name }
    ensures written { held pen.new
        ≡ put_all (Tab ∷ write_field (field_of field) n at chart.now) (held pen.old) }
{
    pen.put(TAB);
    put_said(chart, at, field, n, pen);
}
