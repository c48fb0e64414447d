use crate::scene::Scene;
use protocol::{Refusal, SILENT, Value};
use values::{Point, Switch};

/// The votes that the demonstration shows.
pub(crate) fn scenes() -> Result<[Scene; 3], Refusal> {
    Ok([agreed()?, divided()?, scattered()?])
}

// All correct stations ask for one point, and the faulty one disturbs each of them in another way.
fn agreed() -> Result<Scene, Refusal> {
    let point = Point::new(2500, 1500)?;
    let strongest = Point::new(7000, 6000)?.word();
    let (hold, go) = (Switch::Hold.word(), Switch::Go.word());
    Ok(Scene {
        entries: [point, point, point],
        forged: [
            [strongest, SILENT, 458764001],
            [SILENT, strongest, point.word()],
            [hold, go, SILENT],
            [hold, hold, go],
            [hold, go, SILENT],
            [go, SILENT, hold],
            [hold, 2, go],
            [hold, hold, hold],
        ],
    })
}

// Two ask for one point and the third for another. The faulty one takes each listener's side, so that one of them hears
// no quorum and the others do; as king it tells one Hold, one Go and one nothing.
fn divided() -> Result<Scene, Refusal> {
    let point = Point::new(2500, 1500)?;
    let other = Point::new(2500, -1500)?;
    let (hold, go) = (Switch::Hold.word(), Switch::Go.word());
    Ok(Scene {
        entries: [point, point, other],
        forged: [
            [point.word(), point.word(), other.word()],
            [point.word(), point.word(), SILENT],
            [go, hold, hold],
            [hold, go, SILENT],
            [hold, go, SILENT],
            [go, go, SILENT],
            [go, hold, SILENT],
            [hold, hold, hold],
        ],
    })
}

// Each asks for another point, and the faulty one for each of them.
fn scattered() -> Result<Scene, Refusal> {
    let entries = [
        Point::new(2500, 1500)?,
        Point::new(2500, -1500)?,
        Point::new(3000, 1200)?,
    ];
    let [x, y, z] = entries;
    let (hold, go) = (Switch::Hold.word(), Switch::Go.word());
    let sides = [x.word(), y.word(), z.word()];
    Ok(Scene {
        entries,
        forged: [
            sides,
            sides,
            [go, go, go],
            [go, hold, go],
            [go, hold, go],
            [go, go, go],
            [go, SILENT, go],
            [go, go, go],
        ],
    })
}
