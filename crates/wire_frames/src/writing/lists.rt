//! Lists, and what holds lists.

ghost use Rattle.std.specs.Prelude.{◌≡◌, ◌<◌, ◌≤◌, ◌^◌, ◌++◌, ◌∷◌, length, OnOk};
ghost use Rattle.std.specs.List.{AllByRecursion, flat_map};
ghost use Rattle.lazy_msgs.specs.Frame.{list_form, item_form, cell_form, id_form, placed_form, nodes_form, config_form, marks_form, two};
ghost use Rattle.lazy_msgs.specs.declared.limits.TheConstants.{BATCH_LIMIT, PENDING_LIMIT};
ghost use Rattle.rec_id.specs.declared.limits.TheConstants.{READ_LIMIT};
ghost use Rattle.view_config.specs.declared.limits.TheConstants.{MAX_CLIENTS, MAX_SEQ};
ghost use Rattle.lazy_msgs.specs.FrameLimits.{ItemFits, CellFits, PlacedFits, IsNode, NodesFit, ConfigFits, MarksFit, WindowFits};

use super::fields::{
    put_body, put_byte, put_count, put_entry, put_four, put_id, put_optional, put_two, put_word,
};
use rec_id::{Cell, CellList, Entry, IdList, Item, ItemList, Marks, PlacedList, WindowList};
use std::alloc::AllocError;
use view_config::{Config, Edition, NodeList};

fn put_item(out: &mut Vec<u8>, edition: Edition, item: &Item) -> Result<(), AllocError>
    requires { ItemFits edition item.now }
    ensures { OnOk result (out.new.items ≡ out.old.items ++ item_form edition item.now) }
{
    put_id(out, item.id)?;
    put_optional(out, edition, &item.bytes)
}

fn put_cell(out: &mut Vec<u8>, edition: Edition, cell: &Cell) -> Result<(), AllocError>
    requires { CellFits edition cell.now }
    ensures { OnOk result (out.new.items ≡ out.old.items ++ cell_form edition cell.now) }
{
    put_id(out, cell.id)?;
    put_body(out, edition, &cell.body)
}

fn put_placed(out: &mut Vec<u8>, edition: Edition, placed: &(u32, Entry)) -> Result<(), AllocError>
    requires { PlacedFits edition placed.now }
    ensures { OnOk result (out.new.items ≡ out.old.items ++ placed_form edition placed.now) }
{
    put_four(out, placed.0)?;
    put_entry(out, edition, &placed.1)
}

pub fn put_items(out: &mut Vec<u8>, edition: Edition, items: &ItemList) -> Result<(), AllocError>
    requires count { length items.now ≤ PENDING_LIMIT }
    requires each { AllByRecursion (ItemFits edition) items.now }
    ensures { OnOk result (out.new.items ≡ out.old.items ++ list_form (item_form edition) items.now) }
{
    put_count(out, items.len())?;
    for item in items.as_slice() {
        put_item(out, edition, item)?;
    }
    Ok(())
}

pub fn put_cells(out: &mut Vec<u8>, edition: Edition, cells: &CellList) -> Result<(), AllocError>
    requires count { length cells.now ≤ PENDING_LIMIT }
    requires each { AllByRecursion (CellFits edition) cells.now }
    ensures { OnOk result (out.new.items ≡ out.old.items ++ list_form (cell_form edition) cells.now) }
{
    put_count(out, cells.len())?;
    for cell in cells.as_slice() {
        put_cell(out, edition, cell)?;
    }
    Ok(())
}

pub fn put_ids(out: &mut Vec<u8>, ids: &IdList) -> Result<(), AllocError>
    requires { length ids.now ≤ BATCH_LIMIT }
    ensures { OnOk result (out.new.items ≡ out.old.items ++ list_form id_form ids.now) }
{
    put_count(out, ids.len())?;
    for id in ids.as_slice() {
        put_id(out, *id)?;
    }
    Ok(())
}

pub fn put_entries(
    out: &mut Vec<u8>,
    edition: Edition,
    entries: &PlacedList,
) -> Result<(), AllocError>
    requires count { length entries.now ≤ READ_LIMIT }
    requires each { AllByRecursion (PlacedFits edition) entries.now }
    ensures { OnOk result (out.new.items ≡ out.old.items ++ list_form (placed_form edition) entries.now) }
{
    put_count(out, entries.len())?;
    for placed in entries.as_slice() {
        put_placed(out, edition, placed)?;
    }
    Ok(())
}

fn put_node(out: &mut Vec<u8>, node: u32) -> Result<(), AllocError>
    requires { IsNode node }
    ensures { OnOk result (out.new.items ≡ out.old.items ++ two node) }
{
    put_two(out, node as u16)
}

fn put_nodes(out: &mut Vec<u8>, nodes: &NodeList) -> Result<(), AllocError>
    requires count { length nodes.now ≤ MAX_SEQ }
    requires each { AllByRecursion IsNode nodes.now }
    ensures { OnOk result (out.new.items ≡ out.old.items ++ nodes_form nodes.now) }
{
    put_byte(out, nodes.len() as u8)?;
    for node in nodes.as_slice() {
        put_node(out, *node)?;
    }
    Ok(())
}

fn put_shards(out: &mut Vec<u8>, config: &Config) -> Result<(), AllocError>
    requires { ConfigFits config.now }
    ensures { OnOk result (out.new.items ≡ out.old.items ++ length config.now.shards ∷ flat_map nodes_form config.now.shards) }
{
    put_byte(out, config.shards.len() as u8)?;
    for nodes in config.shards.as_slice() {
        put_nodes(out, nodes)?;
    }
    Ok(())
}

pub fn put_config(out: &mut Vec<u8>, config: &Config) -> Result<(), AllocError>
    requires { ConfigFits config.now }
    ensures { OnOk result (out.new.items ≡ out.old.items ++ config_form config.now) }
{
    put_four(out, config.view)?;
    put_nodes(out, &config.seq)?;
    put_shards(out, config)
}

fn put_marks(out: &mut Vec<u8>, marks: &Marks) -> Result<(), AllocError>
    ensures { OnOk result (out.new.items ≡ out.old.items ++ marks_form marks.now) }
{
    put_four(out, marks.top)?;
    for word in marks.bits.as_slice() {
        put_word(out, *word)?;
    }
    Ok(())
}

pub fn put_window(out: &mut Vec<u8>, window: &WindowList) -> Result<(), AllocError>
    requires { length window.now ≤ MAX_CLIENTS }
    ensures { OnOk result (out.new.items ≡ out.old.items ++ list_form marks_form window.now) }
{
    put_count(out, window.len())?;
    for marks in window.as_slice() {
        put_marks(out, marks)?;
    }
    Ok(())
}
