// Each kind at the edges of its range, and put together.
use limits::colours::Colours;
use limits::counted::Counted;
use limits::kind::Kind;
use limits::length::Length;
use limits::vector::{Four, Vector};
use std::test::Fail;

// What a test expects, and did not get. (An error that holds a text would hold a reference beside a struct with a ghost field.)
#[derive(Debug, Drop)]
pub(crate) struct Missing;

#[test]
fn ranges(rt: HostRuntime) -> Result<(), Fail> {
    assert!(rt; Length::new(0).is_none());
    assert!(rt; Length::new(1).is_some());
    assert!(rt; Length::new(1_000_000_000).is_some());
    assert!(rt; Length::new(1_000_000_001).is_none());
    assert!(rt; Colours::new(0).is_some());
    assert!(rt; Colours::new(64).is_some());
    assert!(rt; Colours::new(65).is_none());
    assert!(rt; Counted::new(0, Length::new(5).ok_or(Missing)?).is_none());
    assert!(rt; Counted::new(100_000, Length::new(5).ok_or(Missing)?).is_some());
    assert!(rt; Counted::new(100_001, Length::new(5).ok_or(Missing)?).is_none());
    Ok(())
}

#[test]
fn vectors(rt: HostRuntime) -> Result<(), Fail> {
    let limits = Four {
        w: 3,
        x: 0,
        y: 1,
        z: 1_000_000_000,
    };
    let kind = Vector::new(limits).ok_or(Missing)?;
    assert!(rt; kind.weigh(&[1, 2, 3]).is_none());
    let load = kind.weigh(&[1, 0, 1, 7]).ok_or(Missing)?;
    assert!(rt; kind.put(&load, &load).is_none());
    assert!(rt; kind.put(&load, &kind.empty()).is_some());
    Ok(())
}

#[test]
fn nested_counts(rt: HostRuntime) -> Result<(), Fail> {
    let length = Length::new(5).ok_or(Missing)?;
    let inner = Counted::new(3, length).ok_or(Missing)?;
    let kind = Counted::new(2, inner).ok_or(Missing)?;
    assert_eq!(rt; Counted::<Counted<Length>>::FIELDS, 1);
    let rail = kind.weigh(&[2]).ok_or(Missing)?;
    let two = kind.put(&rail, &rail).ok_or(Missing)?;
    assert_eq!(rt; two.count, 2);
    assert_eq!(rt; two.below.count, 2);
    assert_eq!(rt; two.below.below, 4);
    assert!(rt; kind.put(&two, &rail).is_none());
    assert!(rt; !kind.same(&two, &rail));
    Ok(())
}

#[test]
fn counted_colours(rt: HostRuntime) -> Result<(), Fail> {
    let kind = Counted::new(3, Colours::new(1).ok_or(Missing)?).ok_or(Missing)?;
    assert!(rt; kind.weigh(&[64]).is_none());
    let red = kind.weigh(&[0]).ok_or(Missing)?;
    let blue = kind.weigh(&[1]).ok_or(Missing)?;
    assert!(rt; kind.put(&red, &red).is_some());
    assert!(rt; kind.put(&red, &blue).is_none());
    Ok(())
}
