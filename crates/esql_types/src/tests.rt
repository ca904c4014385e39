use super::*;
use std::alloc::AllocError;
use std::cmp::Ordering;
use std::test::Fail;

// A tree that holds itself through a list and through a box.
#[derive(Drop)]
enum Tree {
    Leaf(u32),
    Many(Seq<Tree>),
    One(Boxed<Tree>),
}

fn leaves(tree: &Tree) -> usize {
    match tree {
        Tree::Leaf(_) => 1,
        Tree::Many(trees) => {
            let mut count = 0usize;
            for child in trees.as_slice() {
                count = count.saturating_add(leaves(child));
            }
            count
        }
        Tree::One(child) => leaves(child.get()),
    }
}

#[test]
fn a_tree_holds_itself(rt: HostRuntime) -> Result<(), Fail> {
    let mut trees = Seq::new(rt.alloc());
    trees.push(Tree::Leaf(1))?;
    trees.push(Tree::One(Boxed::new(rt.alloc(), Tree::Leaf(2))?))?;
    assert_eq!(rt; leaves(&Tree::Many(trees)), 2);
    Ok(())
}

#[test]
fn lists_and_cells(rt: HostRuntime) -> Result<(), Fail> {
    let mut numbers = Seq::new(rt.alloc());
    numbers.push(1)?;
    numbers.push(2)?;
    assert_eq!(rt; numbers.len(), 2);
    assert_eq!(rt; numbers.replace(0, 5), 1);
    assert_eq!(rt; numbers.pop(), Some(2));
    assert_eq!(rt; numbers.at(0).copied(), Some(5));
    assert_eq!(rt; numbers.at(1).copied(), None);
    assert_eq!(rt; Seq::from_vec(numbers.into_vec()).len(), 1);

    let mut cell = Cell::one(rt.alloc(), Value::Text(Text::from_str(rt.alloc(), "a")?));
    cell.push(Value::Text(Text::from_str(rt.alloc(), "b")?))?;
    let copy = cell.copy()?;
    assert_eq!(rt; copy.len(), 2);
    assert!(rt; matches!(copy.at(1), Some(Value::Text(text)) if text.as_str() == "b"));
    assert!(rt; cell.at(2).is_none());
    assert_eq!(rt; Cell::null(rt.alloc()).len(), 0);
    Ok(())
}

#[test]
fn places_and_order(rt: HostRuntime) -> Result<(), Fail> {
    let text = "aé\nü b";
    assert_eq!(rt; place_of(text, 0), Place { line: 1, column: 1 });
    assert_eq!(rt; place_of(text, 3), Place { line: 1, column: 3 });
    assert_eq!(rt; place_of(text, 7), Place { line: 2, column: 3 });
    assert!(rt; compare_values(&Value::Int(-2), &Value::Int(1)) == Ordering::Less);
    assert!(rt; compare_values(&Value::Bool(true), &Value::Bool(false)) == Ordering::Greater);
    Ok(())
}

#[test]
fn patterns(rt: HostRuntime) -> Result<(), Fail> {
    let mut failing = Seq::new(rt.alloc());
    failing.push(1)?;
    let mut maker = CrateMaker::new(failing);
    assert!(rt; maker.build(rt.alloc(), "[a-z]+").is_ok());
    assert!(rt; matches!(maker.build(rt.alloc(), "a"), Err(PatternError::TooLarge)));
    assert!(rt; matches!(maker.build(rt.alloc(), "("), Err(PatternError::NotRead)));
    Ok(())
}
